// Scripts at their edges: each line of `stdout` was worked out by hand from document 01.
#![tactic(auto)]

use output::Tolerant;
use refusals::Refusal;
use script::{AccessKind, Event};
use std::{fmt, io};

#[derive(Clone, Copy)]
struct Refused(Refusal);

impl fmt::Display for Refused {
    fn fmt<W: fmt::Write>(&self, f: &mut fmt::Formatter<W>) -> fmt::Result {
        write!(f, "refused {}", u32::from(self.0))
    }
}

// The kind of an event and its arguments, 0 where it has fewer than three.
#[derive(Clone, Copy)]
struct Shown(Event);

impl fmt::Display for Shown {
    fn fmt<W: fmt::Write>(&self, f: &mut fmt::Formatter<W>) -> fmt::Result {
        match self.0 {
            Event::Read(width, address) => write!(f, "1 {width} {address} 0"),
            Event::Write(width, address, value) => write!(f, "2 {width} {address} {value}"),
            Event::Line(line, level) => write!(f, "3 {line} {level} 0"),
            Event::Nmi => write!(f, "4 0 0 0"),
            Event::Tick => write!(f, "5 0 0 0"),
            Event::Fault(bit, address) => write!(f, "6 {bit} {address} 0"),
            Event::Svc => write!(f, "7 0 0 0"),
            Event::Special(which, value) => write!(f, "8 {which} {value} 0"),
            Event::Entry => write!(f, "9 0 0 0"),
            Event::Return(value) => write!(f, "10 {value} 0 0"),
            Event::Access(kind, width, address) => {
                let number = u32::from(kind);
                write!(f, "{} 11 {number} {width} {address}", kind_name(kind))
            }
            Event::Lost(line) => write!(f, "12 {line} 0 0"),
            Event::Skip(count) => write!(f, "13 {count} 0 0"),
        }
    }
}

fn kind_name(kind: AccessKind) -> &'static str {
    match kind {
        AccessKind::Read => "read",
        AccessKind::Write => "write",
        AccessKind::Fetch => "fetch",
        AccessKind::Other(_) => "other",
    }
}

// The offset after what was written, or the refusal.
#[derive(Clone, Copy)]
struct Written(Result<usize, Refusal>);

impl fmt::Display for Written {
    fn fmt<W: fmt::Write>(&self, f: &mut fmt::Formatter<W>) -> fmt::Result {
        match self.0 {
            Ok(next) => write!(f, "next {next}"),
            Err(r) => write!(f, "{}", Refused(r)),
        }
    }
}

// A number and the offset after it, or its refusal.
fn show_number(rt: &impl Print, bytes: &[u8], at: usize) -> io::Result<()> {
    match numbers::read_number(bytes, at) {
        Some((n, next)) => println!(rt; "value {n} {next}"),
        None => println!(rt; "{}", Refused(Refusal::Number)),
    }
}

// An event and the offset after it, which is the answer, or the refusal.
fn show_event(rt: &impl Print, bytes: &[u8], at: usize) -> io::Result<Option<usize>> {
    match script::read_event(bytes, at) {
        Ok((e, next)) => {
            println!(rt; "event {} {next}", Shown(e))?;
            Ok(Some(next))
        }
        Err(r) => {
            println!(rt; "{}", Refused(r))?;
            Ok(None)
        }
    }
}

// Each event takes a byte or more.
fn show_script(rt: &impl Print, bytes: &[u8]) -> io::Result<()> {
    let mut at = 0;
    for _ in bytes {
        if at >= bytes.len() {
            return Ok(());
        }
        let Some(next) = show_event(rt, bytes, at)? else {
            return Ok(());
        };
        at = next;
    }
    Ok(())
}

fn write_into(rt: &impl Print, out: &mut [u8], at: usize, e: Event) -> io::Result<()> {
    println!(rt; "{}", Written(script::write_event(out, at, e)))
}

// An event written into eight bytes of 170, and the bytes after that.
fn write(rt: &impl Print, at: usize, e: Event) -> io::Result<()> {
    let mut out = [170u8; 8];
    print!(rt; "{} bytes", Written(script::write_event(&mut out, at, e)))?;
    for b in out {
        print!(rt; " {b}")?;
    }
    println!(rt; "")
}

// A slice that is longer than a script may be: written up to offset 65,536, and never read.
fn long(rt: &impl Print) -> io::Result<()> {
    let mut out = [5u8; 65540];
    write_into(rt, &mut out, 65535, Event::Entry)?;
    write_into(rt, &mut out, 65536, Event::Entry)?;
    write_into(rt, &mut out, 18446744073709551615, Event::Entry)?;
    show_event(rt, &out, 0)?;
    show_event(rt, &out, 65540)?;
    Ok(())
}

// A slice as long as a script may be.
fn longest(rt: &impl Print) -> io::Result<()> {
    let mut out = [5u8; 65536];
    write_into(rt, &mut out, 65535, Event::Entry)?;
    write_into(rt, &mut out, 65535, Event::Return(0))?;
    show_event(rt, &out, 65534)?;
    show_event(rt, &out, 65535)?;
    show_event(rt, &out, 65536)?;
    Ok(())
}

fn numbers(rt: &impl Print) -> io::Result<()> {
    show_number(rt, b"\x00", 0)?;
    show_number(rt, b"\x7F", 0)?;
    show_number(rt, b"\x80\x01", 0)?;
    show_number(rt, b"\xFF\xFF\xFF\xFF\x0F", 0)?;
    show_number(rt, b"\x05\x05\x05", 2)?;
    println!(rt; "not numbers")?;
    show_number(rt, b"\x80\x00", 0)?;
    show_number(rt, b"\xFF\xFF\xFF\xFF\x1F", 0)?;
    show_number(rt, b"\x80\x80\x80\x80\x10", 0)?;
    show_number(rt, b"\x80\x80\x80\x80\x80\x01", 0)?;
    show_number(rt, b"\x80\x80\x80\x80\x00", 0)?;
    show_number(rt, b"\x80", 0)?;
    show_number(rt, b"\x05", 1)?;
    show_number(rt, b"\x05", 18446744073709551615)?;
    Ok(())
}

fn events(rt: &impl Print) -> io::Result<()> {
    println!(rt; "document 01")?;
    show_script(
        rt,
        b"\x02\x04\x80\xC2\x83\x80\x0E\x01\x03\x00\x01\x09\x0A\xF9\xFF\xFF\xFF\x0F\x09\x09",
    )?;
    println!(rt; "all kinds")?;
    show_script(
        rt,
        b"\x01\x04\x10\x02\x01\x02\x03\x03\x36\x01\x04\x05\x06\x09\x64\x07\x08\x02\x20\x09\x0A\x05\x0B\x00\x04\x08\x0B\x01\x02\x03\x0B\x02\x02\x08\x0B\x07\x02\x08\x0C\x36\x0D\xFF\xFF\xFF\xFF\x0F",
    )?;
    println!(rt; "broken")?;
    show_script(rt, b"\x00")?;
    show_script(rt, b"\x0E\x80\x00")?;
    show_script(rt, b"\x0C")?;
    show_script(rt, b"\x0C\x80\x00")?;
    show_script(rt, b"\x8C\x00")?;
    show_script(rt, b"\x0D")?;
    show_script(rt, b"\x0D\xFF\xFF\xFF\xFF\x1F")?;
    show_script(rt, b"\x8D\x00\x00")?;
    show_script(rt, b"\xFF\xFF\xFF\xFF\x0F")?;
    show_script(rt, b"\x05\x02\x04")?;
    show_script(rt, b"\x05\x0B\x00\x04\x80\x00")?;
    Ok(())
}

fn main(rt: HostRuntime) -> io::Result<()> {
    let rt = Tolerant(rt);
    numbers(&rt)?;
    events(&rt)?;
    println!(rt; "written")?;
    write(&rt, 0, Event::Write(4, 128, 1))?;
    write(&rt, 2, Event::Return(4294967295))?;
    write(&rt, 3, Event::Return(4294967295))?;
    write(&rt, 7, Event::Tick)?;
    write(&rt, 8, Event::Tick)?;
    write(&rt, 9, Event::Tick)?;
    write(&rt, 0, Event::Access(AccessKind::Fetch, 2, 127))?;
    write(&rt, 0, Event::Access(AccessKind::Other(1), 4, 16384))?;
    write(&rt, 5, Event::Lost(239))?;
    write(&rt, 6, Event::Lost(239))?;
    write(&rt, 0, Event::Skip(0))?;
    write(&rt, 2, Event::Skip(4294967295))?;
    write(&rt, 3, Event::Skip(4294967295))?;
    long(&rt)?;
    longest(&rt)?;
    Ok(())
}
