// A guest from its file to its calls, by hand.
use crate::expect::same;
use crate::files::start_hello;
use dt_base::abi::{A1, A7, EXIT, WRITE};
use dt_rv64::{Hints, Seg, Stop, segment};
use std::test::Fail;

#[test]
fn hello_runs_from_its_file_to_its_calls(rt: HostRuntime) -> Result<(), Fail> {
    let mut machine = start_hello(rt.alloc())?;
    same(&rt, machine.space.pages(), 258);
    let to_a_call = |count| Seg {
        count,
        stop: Stop::Call,
    };
    same(&rt, segment(&mut machine, &mut Hints::new())?, to_a_call(6));
    same(&rt, machine.reg(A7), WRITE);
    let mut text = [0; 6];
    machine.space.read_bytes(machine.reg(A1), &mut text)?;
    same(&rt, text, *b"hello\n");
    assert!(rt; machine.space.readable(0x1_0ff0, 17).is_err());
    machine.answer(6);
    same(&rt, segment(&mut machine, &mut Hints::new())?, to_a_call(3));
    same(&rt, machine.reg(A7), EXIT);
    Ok(())
}
