// One job's way over a board, and two jobs of one board that run at once.
ghost use Rattle.std.specs.Prelude.{◌≡◌, false, IfOk};
ghost use Rattle.dt_board.specs.Job.{finished};

use crate::expect::same;
use crate::workers::{Meeting, Visitor};
use dt_board::{Board, Claim, Job, Taken};
use dt_rv64::{Hints, Machine, Seg, Stop};
use dt_space::Space;
use std::alloc::Global;
use std::sync::atomic::Ordering::SeqCst;
use std::test::Fail;
use std::thread::join_mut;

const BASE: u64 = 0x1_0000;

// ADDI t0, t0, 1, twice, and ECALL.
const WORDS: [u32; 3] = [0x0012_8293, 0x0012_8293, 0x0000_0073];

/// What the segment of each job comes to.
pub const SEGMENT: Seg = Seg {
    count: 3,
    stop: Stop::Call,
};

// A machine whose segment adds 2 to this number in t0.
fn machine_with(alloc: Global, number: u64) -> Result<Machine, Fail> {
    let mut code = Vec::new(alloc);
    for word in WORDS {
        code.extend_from_slice(&word.to_le_bytes())?;
    }
    let mut regs = [0; 32];
    regs[5] = number;
    Ok(Machine {
        regs,
        pc: BASE,
        space: Space::new(alloc).with_pages(alloc, 16, 1, 5, &code)?,
        reserved: None,
        atomics: false,
    })
}

/// An open job of such a machine.
pub fn open_job(alloc: Global, number: u64) -> Result<Job, Fail>
    ensures { IfOk result (λ job. finished job ≡ false) }
{
    Ok(Job::new(machine_with(alloc, number)?)?)
}

#[test]
fn a_job_is_put_claimed_finished_and_taken(rt: HostRuntime) -> Result<(), Fail> {
    let (board, mut pass) = Board::new(rt.alloc())?;
    let mut first = board.split(&mut pass);
    let mut second = board.split(&mut pass);
    let mut machine = machine_with(rt.alloc(), 40)?;
    let mut copy = machine.fork()?;
    board.put(&mut pass, 5, Job::new(machine)?);
    let Claim::Got(mut job) = board.claim(&mut first, 5) else {
        panic!(rt; "no job waits there")
    };
    let Claim::Nothing(found) = board.claim(&mut second, 5) else {
        panic!(rt; "it was claimed twice")
    };
    same(&rt, found, 2);
    let Taken::NotYet(found) = board.take(&mut pass, 5) else {
        panic!(rt; "it was taken before its end")
    };
    same(&rt, found, 2);
    job.run(&mut Hints::new());
    board.finish(&mut first, job);
    let Taken::Stopped(job) = board.take(&mut pass, 5) else {
        panic!(rt; "it was not finished")
    };
    same(&rt, job.is_of(&copy), true);
    copy.pc = BASE + 4;
    same(&rt, job.is_of(&copy), false);
    let (machine, outcome) = job.parts();
    same(&rt, outcome, Ok(SEGMENT));
    same(&rt, machine.pc, BASE + 8);
    same(&rt, machine.reg(5), 42);
    let Claim::Nothing(found) = board.claim(&mut first, 5) else {
        panic!(rt; "it was there again")
    };
    same(&rt, found, 0);
    board.join(&mut pass, first);
    board.join(&mut pass, second);
    Ok(())
}

#[test]
fn two_jobs_of_a_board_run_at_once(rt: HostRuntime) -> Result<(), Fail> {
    let gate = Meeting {
        first: Visitor::new(),
        second: Visitor::new(),
    };
    let (board, mut pass) = Board::new(rt.alloc())?;
    let mut first = board.split(&mut pass);
    let mut second = board.split(&mut pass);
    board.put(&mut pass, 0, open_job(rt.alloc(), 0)?);
    board.put(&mut pass, 1, open_job(rt.alloc(), 1)?);
    let (one, two) = join_mut(
        &rt,
        &mut || board.work(&mut first, &mut Hints::new(), &gate),
        &mut || board.work(&mut second, &mut Hints::new(), &gate),
    );
    same(&rt, one.wrapping_add(two), 2);
    same(&rt, gate.first.has_met.load(SeqCst), true);
    same(&rt, gate.second.has_met.load(SeqCst), true);
    let one = matches!(board.take(&mut pass, 0), Taken::Stopped(_));
    let two = matches!(board.take(&mut pass, 1), Taken::Stopped(_));
    same(&rt, (one, two), (true, true));
    Ok(())
}
