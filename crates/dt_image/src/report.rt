// The texts of a report but for its tree.
ghost use Rattle.std.specs.Prelude.{◌≡◌, ◌++◌, OnOk, IfOk};
ghost use Rattle.dt_image.specs.Report.{header, event_text, events_text, verdict_text};

use dt_base::{Blob, End, Errno, Event, NoMemory, Verdict};
use std::alloc::Global;
use std::io::Write;

/// The line that a report on an image of that version begins with.
pub fn header(alloc: Global, version: u64) -> Result<Blob, NoMemory>
    ensures { IfOk result (λ text. text ≡ header version) }
{
    let mut text = Vec::new(alloc);
    write!(&mut text, "dettrace {version}\n").map_err(|_| NoMemory)?;
    Ok(Blob::new(text))
}

/// The lines of a report that tell of an event.
pub fn event_text(alloc: Global, event: &Event) -> Result<Blob, NoMemory>
    ensures { IfOk result (λ text. text ≡ event_text event.now) }
{
    let mut text = Vec::new(alloc);
    write_event(&mut text, event)?;
    Ok(Blob::new(text))
}

/// The texts of events in their order.
pub fn events_text(alloc: Global, events: &[Event]) -> Result<Blob, NoMemory>
    ensures { IfOk result (λ text. text ≡ events_text events.now) }
{
    let mut text = Vec::new(alloc);
    for event in events {
        write_event(&mut text, event)?;
    }
    Ok(Blob::new(text))
}

fn write_event(text: &mut Vec<u8>, event: &Event) -> Result<(), NoMemory>
    ensures { OnOk result (text.new.items ≡ text.old.items ++ event_text event.now) }
{
    match event {
        Event::Out(stream, bytes) => write_output(text, *stream, bytes.as_slice()),
        Event::Exit(pid, end) => write_exit(text, *pid, *end),
    }
}

fn write_output(text: &mut Vec<u8>, stream: u8, bytes: &[u8]) -> Result<(), NoMemory>
    ensures { OnOk result (text.new.items ≡ text.old.items ++ event_text (Event.Out stream bytes.now)) }
{
    let count = bytes.len();
    write!(text, "out {stream} {count}\n").map_err(|_| NoMemory)?;
    text.extend_from_slice(bytes)?;
    text.push(b'\n')?;
    Ok(())
}

fn write_exit(text: &mut Vec<u8>, pid: u32, end: End) -> Result<(), NoMemory>
    ensures { OnOk result (text.new.items ≡ text.old.items ++ event_text (Event.Exit pid end)) }
{
    match end {
        End::Code(code) => write!(text, "exit {pid} code {code}\n"),
        End::Signal(signal) => write!(text, "exit {pid} signal {signal}\n"),
    }
    .map_err(|_| NoMemory)
}

/// The line of the verdict.
pub fn verdict_text(alloc: Global, verdict: &Verdict) -> Result<Blob, NoMemory>
    ensures { IfOk result (λ text. text ≡ verdict_text verdict.now) }
{
    let mut text = Vec::new(alloc);
    write_verdict(&mut text, verdict)?;
    Ok(Blob::new(text))
}

fn write_verdict(text: &mut Vec<u8>, verdict: &Verdict) -> Result<(), NoMemory>
    ensures { OnOk result (text.new.items ≡ text.old.items ++ verdict_text verdict.now) }
{
    match *verdict {
        Verdict::Ended => put(text, b"verdict ended\n"),
        Verdict::Deadlock => put(text, b"verdict deadlock\n"),
        Verdict::Budget => put(text, b"verdict budget\n"),
        Verdict::Unsupported(pid, call) => write_unsupported(text, pid, call),
        Verdict::NoStart(errno) => write_no_start(text, errno),
    }
}

fn write_unsupported(text: &mut Vec<u8>, pid: u32, call: u64) -> Result<(), NoMemory>
    ensures { OnOk result (text.new.items ≡ text.old.items ++ verdict_text (Verdict.Unsupported pid call)) }
{
    write!(text, "verdict unsupported {pid} {call}\n").map_err(|_| NoMemory)
}

fn write_no_start(text: &mut Vec<u8>, errno: Errno) -> Result<(), NoMemory>
    ensures { OnOk result (text.new.items ≡ text.old.items ++ verdict_text (Verdict.NoStart errno)) }
{
    let number = errno.number();
    write!(text, "verdict nostart {number}\n").map_err(|_| NoMemory)
}

fn put(text: &mut Vec<u8>, bytes: &[u8]) -> Result<(), NoMemory>
    ensures { OnOk result (text.new.items ≡ text.old.items ++ bytes.now) }
{
    text.extend_from_slice(bytes)?;
    Ok(())
}
