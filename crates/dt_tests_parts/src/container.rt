// Calls of a container that no run makes: a machine that is taken away, and what is shown before a turn.
ghost use Rattle.dt_host.specs.World.{IsEmptyStart};

use crate::copies::{HELLO_INDEX, image, run_options};
use crate::expect::same;
use dt_asm::{AsmErr, hello};
use dt_base::{Command, FIRST_PID, Image};
use dt_calls::{Container, Launch};
use dt_host::{Host, HostErr};
use dt_memhost::{MemHost, Picker};
use dt_rv64::{Hints, Seg, Stop};
use std::alloc::Global;
use std::test::Fail;

// The first segment of a command's program, whose machine was taken away before and brought home, with how many events
// there were; none where the program can't be started.
fn first_segment<H: Host>(
    alloc: Global,
    host: &mut H,
    image: &Image,
    command: &Command,
) -> Result<Option<(Seg, usize)>, HostErr>
    requires { IsEmptyStart (H.view host.old) }
{
    let mut container = Container::install(alloc, host, image, 0)?;
    match container.launch(host, command)? {
        Launch::NoStart(_) => Ok(None),
        Launch::Started => {
            let machine = container.take_machine(FIRST_PID);
            container.give_machine(FIRST_PID, machine);
            let segment = container.run_segment(FIRST_PID, &mut Hints::new())?;
            Ok(Some((segment, container.events().len())))
        }
    }
}

// The same of `/hello` at a host that holds nothing.
fn first_of_hello(alloc: Global) -> Result<Option<(Seg, usize)>, Fail> {
    let program = hello_file(alloc)?;
    let image = image(alloc, HELLO_INDEX, "img/hello", &program)?;
    let command = run_options(alloc, &["run", "img", "--", "/hello"])?.command;
    let mut host = MemHost::new(alloc, Picker::new(Vec::new(alloc), 1), Vec::new(alloc))?;
    Ok(first_segment(alloc, &mut host, &image, &command)?)
}

fn hello_file(alloc: Global) -> Result<Vec<u8>, AsmErr> {
    hello(alloc)?.elf()
}

// `hello` asks for its first call by its sixth instruction.
const FIRST: Seg = Seg {
    count: 6,
    stop: Stop::Call,
};

#[test]
fn a_machine_that_was_away_runs_from_its_start(rt: HostRuntime) -> Result<(), Fail> {
    same(&rt, first_of_hello(rt.alloc())?, Some((FIRST, 0)));
    Ok(())
}
