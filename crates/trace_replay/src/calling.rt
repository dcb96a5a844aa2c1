//! A line of a trace as a call of its thread, over the places of one order of calls.

ghost use Rattle.std.specs.Prelude.{◌≡◌, ◌≤◌, ◌*◌, ℕ, None, IfOk, OnErr, length};
ghost use Rattle.chunk_tags.specs.Tunables.{IsTuned};
ghost use Rattle.block_names.specs.Names.{block_at, IsTable};
ghost use Rattle.arena_holds.specs.Places.{tray_count};
ghost use Rattle.malloc_calls.specs.Threads.{names_of, number_of, own_of, with_own, who_of};
ghost use Rattle.serial_places.specs.Trays.{tray_at};
ghost use Rattle.serial_places.specs.declared.tray.Tray.TheVariants.{Empty};
ghost use Rattle.trace_text.specs.declared.trace.Call.TheVariants.{Malloc, Calloc, Realloc, Align, Free, Post, Take, Exit};
ghost use Rattle.trace_replay.specs.Naming.{MayCall, MakesName, ResizesName, EmptiesName, PostsName, TakesName};
ghost use Rattle.trace_replay.specs.Processes.{IsServedBy, KeepsOn, DoesAt, Calls};
ghost use Rattle.trace_replay.specs.LeftLines.{LacksPlace, IsCallLeft};
ghost use Rattle.trace_replay.specs.Tiling.{bytes_wanted, aligned_wanted};
ghost use Rattle.trace_replay.specs.World.{call_of, name_in, own_tidied};

use address_space::Kernel;
use chunk_tags::{NoMemory, Tunables};
use malloc_calls::{Reply, Thread};
use serial_places::Serial;
use trace_text::{Call, Line};

/// malloc of a size under a name that holds nothing, in a line.
fn malloc<K: Kernel>(
    thread: &mut Thread<K>,
    serial: &mut Serial,
    line: u64,
    name: u32,
    size: u64,
    t: &Tunables,
) -> Result<Reply, NoMemory>
    requires free { block_at (names_of thread.old) name ≡ None }
    requires tuned { IsTuned t.now }
    requires served { IsServedBy t.now thread.old serial.old }
    ensures does { IfOk result (λ reply.
        DoesAt K.port t.now line
        (call_of t.now (number_of thread.old) (Malloc name size) (own_of thread.old))
        thread.old serial.old reply thread.new serial.new) }
    ensures keeps { IfOk result (λ _. KeepsOn thread.old serial.old thread.new serial.new) }
    ensures names { IfOk result (λ _.
        MakesName name (bytes_wanted size) (names_of thread.old) (names_of thread.new)) }
    ensures trays { IfOk result (λ _. serial.new.trays ≡ serial.old.trays) }
    ensures left { OnErr result (IsCallLeft K.port t.now line (Malloc name size)
        thread.old serial.old thread.new serial.new) }
{
    thread.ready(name)?;
    thread.malloc(serial, line, name, size, t)
}

/// calloc of `n` members of a size under a name that holds nothing, in a line.
fn calloc<K: Kernel>(
    thread: &mut Thread<K>,
    serial: &mut Serial,
    line: u64,
    name: u32,
    n: u64,
    size: u64,
    t: &Tunables,
) -> Result<Reply, NoMemory>
    requires free { block_at (names_of thread.old) name ≡ None }
    requires tuned { IsTuned t.now }
    requires served { IsServedBy t.now thread.old serial.old }
    ensures does { IfOk result (λ reply.
        DoesAt K.port t.now line
        (call_of t.now (number_of thread.old) (Calloc name n size) (own_of thread.old))
        thread.old serial.old reply thread.new serial.new) }
    ensures keeps { IfOk result (λ _. KeepsOn thread.old serial.old thread.new serial.new) }
    ensures names { IfOk result (λ _.
        MakesName name (bytes_wanted (n * size)) (names_of thread.old) (names_of thread.new)) }
    ensures trays { IfOk result (λ _. serial.new.trays ≡ serial.old.trays) }
    ensures left { OnErr result (IsCallLeft K.port t.now line (Calloc name n size)
        thread.old serial.old thread.new serial.new) }
{
    thread.ready(name)?;
    thread.calloc(serial, line, name, n, size, t)
}

/// posix_memalign of a size under a name that holds nothing, in a line.
fn posix_memalign<K: Kernel>(
    thread: &mut Thread<K>,
    serial: &mut Serial,
    line: u64,
    name: u32,
    align: u64,
    size: u64,
    t: &Tunables,
) -> Result<Reply, NoMemory>
    requires free { block_at (names_of thread.old) name ≡ None }
    requires tuned { IsTuned t.now }
    requires served { IsServedBy t.now thread.old serial.old }
    ensures does { IfOk result (λ reply.
        DoesAt K.port t.now line
        (call_of t.now (number_of thread.old) (Align name align size) (own_of thread.old))
        thread.old serial.old reply thread.new serial.new) }
    ensures keeps { IfOk result (λ _. KeepsOn thread.old serial.old thread.new serial.new) }
    ensures names { IfOk result (λ _.
        MakesName name (aligned_wanted align size) (names_of thread.old) (names_of thread.new)) }
    ensures trays { IfOk result (λ _. serial.new.trays ≡ serial.old.trays) }
    ensures left { OnErr result (IsCallLeft K.port t.now line (Align name align size)
        thread.old serial.old thread.new serial.new) }
{
    thread.ready(name)?;
    thread.posix_memalign(serial, line, name, align, size, t)
}

/// realloc of a name's block, in a line.
fn realloc<K: Kernel>(
    thread: &mut Thread<K>,
    serial: &mut Serial,
    line: u64,
    name: u32,
    size: u64,
    t: &Tunables,
) -> Result<Reply, NoMemory>
    requires tuned { IsTuned t.now }
    requires served { IsServedBy t.now thread.old serial.old }
    ensures does { IfOk result (λ reply.
        DoesAt K.port t.now line
        (call_of t.now (number_of thread.old) (Realloc name size) (own_of thread.old))
        thread.old serial.old reply thread.new serial.new) }
    ensures keeps { IfOk result (λ _. KeepsOn thread.old serial.old thread.new serial.new) }
    ensures names { IfOk result (λ reply.
        ResizesName name size reply (names_of thread.old) (names_of thread.new)) }
    ensures trays { IfOk result (λ _. serial.new.trays ≡ serial.old.trays) }
    ensures left { OnErr result (IsCallLeft K.port t.now line (Realloc name size)
        thread.old serial.old thread.new serial.new) }
{
    thread.ready(name)?;
    thread.realloc(serial, line, name, size, t)
}

/// free of a name's block, in a line.
fn free<K: Kernel>(
    thread: &mut Thread<K>,
    serial: &mut Serial,
    line: u64,
    name: u32,
    t: &Tunables,
) -> Result<Reply, NoMemory>
    requires tuned { IsTuned t.now }
    requires served { IsServedBy t.now thread.old serial.old }
    ensures does { IfOk result (λ reply.
        DoesAt K.port t.now line
        (call_of t.now (number_of thread.old) (Free name) (own_of thread.old))
        thread.old serial.old reply thread.new serial.new) }
    ensures keeps { IfOk result (λ _. KeepsOn thread.old serial.old thread.new serial.new) }
    ensures names { IfOk result (λ _.
        EmptiesName name (names_of thread.old) (names_of thread.new)) }
    ensures trays { IfOk result (λ _. serial.new.trays ≡ serial.old.trays) }
    ensures left { OnErr result (IsCallLeft K.port t.now line (Free name)
        thread.old serial.old thread.new serial.new) }
{
    thread.ready(name)?;
    thread.free(serial, line, name, t)
}

/// The end of a thread, in a line.
fn exit<K: Kernel>(
    thread: &mut Thread<K>,
    serial: &mut Serial,
    line: u64,
    t: &Tunables,
) -> Result<Reply, NoMemory>
    requires tuned { IsTuned t.now }
    requires served { IsServedBy t.now thread.old serial.old }
    ensures does { IfOk result (λ reply.
        DoesAt K.port t.now line (call_of t.now (number_of thread.old) Exit (own_of thread.old))
        thread.old serial.old reply thread.new serial.new) }
    ensures keeps { IfOk result (λ _. KeepsOn thread.old serial.old thread.new serial.new) }
    ensures names { names_of thread.new ≡ names_of thread.old }
    ensures trays { IfOk result (λ _. serial.new.trays ≡ serial.old.trays) }
    ensures left { OnErr result (IsCallLeft K.port t.now line Exit
        thread.old serial.old thread.new serial.new) }
{
    thread.exit(serial, line, t)
}

/// Posts a name's block to a tray that is empty. `NoMemory` comes only where the name has no place yet.
fn post<K: Kernel>(
    thread: &mut Thread<K>,
    serial: &mut Serial,
    name: u32,
    tray: u32,
    t: &Tunables,
) -> Result<Reply, NoMemory>
    requires tray { tray ≤ 65535 }
    requires trays { length serial.old.trays ≡ tray_count }
    requires empty { tray_at serial.old.trays tray ≡ Empty }
    requires served { IsServedBy t.now thread.old serial.old }
    ensures does { (line : ℕ) → IfOk result (λ reply.
        DoesAt K.port t.now line
        (call_of t.now (number_of thread.old) (Post name tray) (own_of thread.old))
        thread.old serial.old reply thread.new serial.new) }
    ensures keeps { IfOk result (λ _. KeepsOn thread.old serial.old thread.new serial.new) }
    ensures names { IfOk result (λ reply. PostsName name tray reply
        (names_of thread.old) (names_of thread.new) serial.old.trays serial.new.trays) }
    ensures full { OnErr result (LacksPlace (Post name tray)
        thread.old serial.old thread.new serial.new) }
{
    thread.ready(name)?;
    Ok(thread.post(serial, name, tray))
}

/// Takes a tray's block under a name that holds nothing. `NoMemory` comes only where the name has no place yet.
fn take<K: Kernel>(
    thread: &mut Thread<K>,
    serial: &mut Serial,
    name: u32,
    tray: u32,
    t: &Tunables,
) -> Result<Reply, NoMemory>
    requires free { block_at (names_of thread.old) name ≡ None }
    requires tray { tray ≤ 65535 }
    requires trays { length serial.old.trays ≡ tray_count }
    requires served { IsServedBy t.now thread.old serial.old }
    ensures does { (line : ℕ) → IfOk result (λ reply.
        DoesAt K.port t.now line
        (call_of t.now (number_of thread.old) (Take name tray) (own_of thread.old))
        thread.old serial.old reply thread.new serial.new) }
    ensures keeps { IfOk result (λ _. KeepsOn thread.old serial.old thread.new serial.new) }
    ensures names { IfOk result (λ reply. TakesName name tray reply
        (names_of thread.old) (names_of thread.new) serial.old.trays serial.new.trays) }
    ensures full { OnErr result (LacksPlace (Take name tray)
        thread.old serial.old thread.new serial.new) }
{
    thread.ready(name)?;
    Ok(thread.take(serial, name, tray))
}

/// The call of a line, by its thread. `NoMemory` comes only where its name has no place yet, or where it asks for memory on
/// its way.
pub fn call<K: Kernel>(
    thread: &mut Thread<K>,
    serial: &mut Serial,
    line: &Line,
    t: &Tunables,
) -> Result<Reply, NoMemory>
    requires thread { number_of thread.old ≡ line.now.thread }
    requires may { MayCall line.now (names_of thread.old) serial.old.trays }
    requires trays { length serial.old.trays ≡ tray_count }
    requires tuned { IsTuned t.now }
    requires served { IsServedBy t.now thread.old serial.old }
    ensures done { IfOk result (λ reply.
        Calls K.port t.now line.now thread.old serial.old reply thread.new serial.new) }
    ensures left { OnErr result (IsCallLeft K.port t.now line.now.number line.now.call
        thread.old serial.old thread.new serial.new) }
{
    let number = line.number;
    match line.call {
        Call::Malloc { name, size } => malloc(thread, serial, number, name, size, t),
        Call::Calloc { name, n, size } => { calloc(thread, serial, number, name, n, size, t) }
        Call::Align { name, align, size } => {
            posix_memalign(thread, serial, number, name, align, size, t)
        }
        Call::Realloc { name, size } => realloc(thread, serial, number, name, size, t),
        Call::Free { name } => free(thread, serial, number, name, t),
        Call::Post { name, tray } => post(thread, serial, name, tray, t),
        Call::Take { name, tray } => take(thread, serial, name, tray, t),
        Call::Exit => exit(thread, serial, number, t),
    }
}

/// The name of a call; the end of a thread has none.
pub fn name_of(call: &Call) -> Option<u32>
    ensures { result ≡ name_in call.now }
{
    match *call {
        Call::Malloc { name, .. }
        | Call::Calloc { name, .. }
        | Call::Align { name, .. }
        | Call::Realloc { name, .. }
        | Call::Free { name }
        | Call::Post { name, .. }
        | Call::Take { name, .. } => Some(name),
        Call::Exit => None,
    }
}

/// The end of a line: the place of its name goes, where that is one of its own and empty.
pub fn tidy<K: Kernel>(thread: &mut Thread<K>, line: &Line)
    ensures { thread.new
        ≡ with_own (own_tidied (name_in line.now.call) (own_of thread.old)) thread.old }
{
    if let Some(name) = name_of(&line.call) {
        thread.tidy(name);
    }
}
