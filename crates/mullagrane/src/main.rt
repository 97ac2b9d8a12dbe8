// The program: reads an AIGER text from standard input and prints a verdict for every output, in a table of 4,096 rows. The system is built once.
#![tactic(auto)]

ghost use Rattle.std.specs.Prelude.{◌<◌, length};
ghost use Rattle.table.specs.Made.{made_of};
ghost use Rattle.table.specs.Views.{slices_of};
ghost use Rattle.aiger.specs.Circuit.{circuit_of};
ghost use Rattle.printing.specs.Inner.{Prints};
ghost use Rattle.mullagrane.specs.Inner.{Ready};

use aiger::net::{Net, Places};
use nets::read_net;
use outputs::system;
use printing::{Line, print, print_refusal};
use reading::read_full;
use std::io;
use std::io::Write;
use table::{NoRoom, Row, Table};

// The line of output o of this net.
fn line_of(
    net: &Net<'_>,
    t: &mut Table<'_>,
    made: Result<Row, NoRoom>,
    o: usize,
    pattern: &mut [u8],
) -> Line
    requires ready { Ready (made_of made t.old.count) (slices_of t.old) net.now (length pattern.old) }
    requires there { o < net.now.sizes.outputs }
    ensures prints { Prints (circuit_of net.now) (slices_of t.old) o pattern.old result.bytes }
    ensures ready { Ready (made_of made t.new.count) (slices_of t.new) net.now (length pattern.new) }
{
    match made {
        Ok(system) => print(t, Ok((net, system)), o, pattern),
        Err(NoRoom) => print(t, Err(NoRoom), o, pattern),
    }
}

// Each output from the system's rows, which stay, or from the want of room for it. A standard output that fails ends it.
fn print_all(
    rt: &impl Print,
    net: &Net<'_>,
    t: &mut Table<'_>,
    made: Result<Row, NoRoom>,
    pattern: &mut [u8],
) -> io::Result<()>
    requires { Ready (made_of made t.old.count) (slices_of t.old) net.now (length pattern.old) }
{
    for o in 0..net.sizes.outputs as usize {
        let line = line_of(net, t, made, o, pattern);
        // by one write, also where the line is longer than the buffer of `print`
        io::writer(rt).write_all(line.as_bytes())?;
    }
    Ok(())
}

// The verdicts of an accepted net.
fn judge_net(rt: &impl Print, net: &Net<'_>) -> io::Result<()> {
    // fixed memory: the project uses no heap
    let mut t = Table {
        vs: &mut [0; 4096],
        ts: &mut [0; 4096],
        es: &mut [0; 4096],
        count: 0,
        work: &mut [0; 25600],
    };
    let mut pattern = [0u8; 1024];
    let made = system(net, &mut t);
    print_all(
        rt,
        net,
        &mut t,
        made,
        &mut pattern[..net.sizes.inputs as usize],
    )
}

// One byte more than a text may have is enough to refuse it.
fn main(rt: HostRuntime) -> io::Result<()> {
    let mut text = [0u8; 32769];
    let length = read_full(&mut rt.reader(), &mut text)?;
    let mut places = Places::new();
    match read_net(&text[..length], &mut places) {
        Ok((net, _)) => judge_net(&rt, &net),
        Err(why) => io::writer(&rt).write_all(print_refusal(why).as_bytes()),
    }
}
