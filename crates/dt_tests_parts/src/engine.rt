// Happenings in any order on `trio`: how many of them come, what shows, who owes a segment then, and what an admission
// answers.
ghost use Rattle.std.specs.Prelude.{IfOk};
ghost use Rattle.dt_host.specs.World.{IsEmptyStart};
ghost use Rattle.dt_calls.specs.Sound.{IsSoundContainer};
ghost use Rattle.dt_engine.specs.InPlay.{playing_of, IsFull, IsInPlay};

use crate::copies::{image, run_options};
use crate::expect::same_at;
use crate::happenings::CASES;
use dt_asm::{AsmErr, trio};
use dt_base::{Command, Image, NoMemory};
use dt_host::Host;
use dt_memhost::{MemHost, MemSink, Picker};
use dt_run::{Admitted, Engine, Happening, RunErr};
use std::alloc::Global;
use std::process::Abort;
use std::test::Fail;

// An index of one file, `/trio`.
const TRIO_INDEX: &[u8] =
    b"{\"version\":1,\"entries\":[{\"path\":\"/trio\",\"type\":\"file\",\"mode\":493,\"blob\":\"trio\"}]}";

// What shows in the whole run, and how many bytes of it stand after no end, one, two and three.
const SHOWN: &[u8] = b"dettrace 1\nexit 2 code 7\nexit 3 code 7\nexit 1 code 0\n";

const LENGTHS: [usize; 4] = [11, 25, 39, 53];

// A list of happenings.
fn happenings(alloc: Global, list: &str) -> Result<Vec<Happening>, NoMemory> {
    let mut happenings = Vec::new(alloc);
    for byte in list.as_bytes() {
        happenings.push(match *byte {
            b'a' => Happening::Admit,
            digit => Happening::Ran(u32::from(digit.wrapping_sub(b'0'))),
        })?;
    }
    Ok(happenings)
}

fn copied(alloc: Global, vpids: &[u32]) -> Result<Vec<u32>, NoMemory> {
    Ok(Vec::from_slice(alloc, vpids)?)
}

// How far a list came, who owes a segment then, how many bytes stand then, and what an admission answers next.
#[derive(Drop)]
struct Played {
    count: usize,
    owing: Vec<u32>,
    shown: usize,
    next: Admitted,
}

fn trio_image(alloc: Global) -> Result<Image, Fail> {
    let program = trio_file(alloc)?;
    Ok(image(alloc, TRIO_INDEX, "img/trio", &program)?)
}

fn trio_file(alloc: Global) -> Result<Vec<u8>, AsmErr> {
    trio(alloc)?.elf()
}

// What a program is run on.
#[derive(Drop)]
struct Given {
    alloc: Global,
    image: Image,
    command: Command,
}

impl Given {
    fn new(alloc: Global) -> Result<Self, Fail> {
        let command = run_options(alloc, &["run", "img", "--", "/trio"])?.command;
        let image = trio_image(alloc)?;
        Ok(Given {
            alloc,
            image,
            command,
        })
    }

    // Plays a list from the start.
    fn play<H: Host>(
        &self,
        host: &mut H,
        out: &mut MemSink,
        budget: u64,
        list: &str,
    ) -> Result<Played, RunErr>
        requires { IsEmptyStart (H.view host.old) }
    {
        let happenings = happenings(self.alloc, list)?;
        self.play_all(host, out, budget, &happenings)
    }

    fn play_all<H: Host>(
        &self,
        host: &mut H,
        out: &mut MemSink,
        budget: u64,
        happenings: &[Happening],
    ) -> Result<Played, RunErr>
        requires { IsEmptyStart (H.view host.old) }
    {
        let mut engine = Engine::begin(
            self.alloc,
            host,
            out,
            &self.image,
            &self.command,
            0,
            budget,
        )?;
        go_on(self.alloc, &mut engine, host, out, happenings)
    }
}

// Plays a list of happenings, and then an admission.
fn go_on<H: Host>(
    alloc: Global,
    engine: &mut Engine,
    host: &mut H,
    out: &mut MemSink,
    happenings: &[Happening],
) -> Result<Played, RunErr>
    requires whole { IsInPlay engine.old }
    requires sound { IsSoundContainer engine.old.state.container (H.view host.old) }
    requires full { let e = playing_of engine.old (H.view host.old) in IsFull e.state }
{
    let count = engine.play(host, out, happenings)?;
    let owing = copied(alloc, engine.owing())?;
    let shown = out.bytes().len();
    let next = engine.admit(host, out)?;
    Ok(Played {
        count,
        owing,
        shown,
        next,
    })
}

fn sink(alloc: Global, room: Option<u64>) -> Result<MemSink, NoMemory> {
    let picker = Picker::new(Vec::new(alloc), 7);
    MemSink::new(alloc, picker, Vec::new(alloc), room)
}

fn host(alloc: Global) -> Result<MemHost, NoMemory>
    ensures { IfOk result (λ host. IsEmptyStart host.view) }
{
    MemHost::new(alloc, Picker::new(Vec::new(alloc), 7), Vec::new(alloc))
}

// As `CASES` has them.
type Row = (u64, &'static str, usize, usize, &'static [u32], Admitted);

fn expect_row(rt: &impl Abort, given: &Given, row: &Row) -> Result<(), RunErr> {
    let (budget, list, count, ends, owing, next) = row;
    let mut host = host(given.alloc)?;
    let mut out = sink(given.alloc, None)?;
    let played = given.play(&mut host, &mut out, *budget, *list)?;
    let shown = out.bytes().get(..played.shown);
    let at = (*budget, *list);
    same_at(rt, at, played.count, *count);
    same_at(rt, at, shown, SHOWN.get(..LENGTHS[*ends % 4]));
    same_at(rt, at, played.owing.as_slice(), *owing);
    same_at(rt, at, played.next, *next);
    Ok(())
}

fn expect_rows(rt: &impl Abort, given: &Given, rows: &[Row]) -> Result<(), RunErr> {
    for row in rows {
        expect_row(rt, given, row)?;
    }
    Ok(())
}

#[test]
fn the_longest_prefix_comes_that_may(rt: HostRuntime) -> Result<(), Fail> {
    let given = Given::new(rt.alloc())?;
    expect_rows(&rt, &given, CASES)?;
    Ok(())
}

fn expect_prefix(rt: &impl Abort, given: &Given, room: u64) -> Result<(), NoMemory> {
    let mut host = host(given.alloc)?;
    let mut out = sink(given.alloc, Some(room))?;
    let played = given.play(&mut host, &mut out, 1000, "1a21a31aaa1a1a");
    same_at(rt, room, played.err(), Some(RunErr::Sink));
    same_at(rt, room, Some(out.bytes()), SHOWN.get(..room as usize));
    Ok(())
}

#[test]
fn what_a_full_sink_has_is_a_prefix(rt: HostRuntime) -> Result<(), Fail> {
    let given = Given::new(rt.alloc())?;
    for room in 0..53 {
        expect_prefix(&rt, &given, room)?;
    }
    Ok(())
}
