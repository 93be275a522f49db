// The exported twins of the calls, for C and Rust: each answers number * 4294967296 + value. They stand in a crate of
// their own, since a crate is a library or a static library; `service` has the calls, for what is written in Rattle.
#![tactic(auto)]

ghost use Rattle.answers.specs.Forms.{Packed};
ghost use Rattle.service.specs.Promises.{AcknowledgedPromise, CreatePromise, ListPromise, PendingPromise, PushPromise, ReceivePromise, RemovePromise, RenamePromise, SpreadPromise, StartPromise, UnlinkPromise};

#[unsafe(no_mangle)]
pub extern "C" fn rumbezalo_start(table: &mut [u8], node: u64, n: u64) -> u64
    ensures { StartPromise Packed table.old node n result table.new }
{
    answers::pack(service::start::start(table, node, n))
}

#[unsafe(no_mangle)]
pub extern "C" fn rumbezalo_list(table: &[u8], id: u64, out: &mut [u8]) -> u64
    ensures { ListPromise Packed table.now id out.old result out.new }
{
    answers::pack(service::list::list(table, id, out))
}

#[unsafe(no_mangle)]
pub extern "C" fn rumbezalo_pending(table: &[u8]) -> u64
    ensures { PendingPromise Packed table.now result }
{
    answers::pack(service::pending::pending(table))
}

#[unsafe(no_mangle)]
pub extern "C" fn rumbezalo_acknowledged(table: &mut [u8], message: &[u8]) -> u64
    ensures { AcknowledgedPromise Packed table.old message.now result table.new }
{
    answers::pack(service::acknowledged::acknowledged(table, message))
}

#[unsafe(no_mangle)]
pub extern "C" fn rumbezalo_create(
    table: &mut [u8],
    time: u64,
    directory: u64,
    kind: u64,
    name: &[u8],
    set: u64,
) -> u64
    ensures { CreatePromise Packed table.old time directory kind name.now set result table.new }
{
    answers::pack(service::tree::create(table, time, directory, kind, name, set))
}

#[unsafe(no_mangle)]
pub extern "C" fn rumbezalo_unlink(table: &mut [u8], time: u64, id: u64) -> u64
    ensures { UnlinkPromise Packed table.old time id result table.new }
{
    answers::pack(service::tree::unlink(table, time, id))
}

#[unsafe(no_mangle)]
pub extern "C" fn rumbezalo_rename(
    table: &mut [u8],
    time: u64,
    id: u64,
    directory: u64,
    name: &[u8],
) -> u64
    ensures { RenamePromise Packed table.old time id directory name.now result table.new }
{
    answers::pack(service::tree::rename(table, time, id, directory, name))
}

#[unsafe(no_mangle)]
pub extern "C" fn rumbezalo_remove(table: &mut [u8], time: u64, id: u64) -> u64
    ensures { RemovePromise Packed table.old time id result table.new }
{
    answers::pack(service::tree::remove(table, time, id))
}

#[unsafe(no_mangle)]
pub extern "C" fn rumbezalo_spread(table: &mut [u8], id: u64, set: u64) -> u64
    ensures { SpreadPromise Packed table.old id set result table.new }
{
    answers::pack(service::tree::spread(table, id, set))
}

#[unsafe(no_mangle)]
pub extern "C" fn rumbezalo_push(table: &[u8], id: u64, node: u64, out: &mut [u8]) -> u64
    ensures { PushPromise Packed table.now id node out.old result out.new }
{
    answers::pack(service::push::push(table, id, node, out))
}

#[unsafe(no_mangle)]
pub extern "C" fn rumbezalo_receive(
    table: &mut [u8],
    time: u64,
    message: &[u8],
    out: &mut [u8],
) -> u64
    ensures { ReceivePromise Packed table.old time message.now out.old result table.new out.new }
{
    answers::pack(service::receive::receive(table, time, message, out))
}
