// Logs near document 01's worked one, each with the whole of what dyemap prints for it.
use report::{MOST_BYTES, ROOM, report};
use std::io;

// The report of a log, after a line that names it.
fn show_log(rt: &impl Print, name: &str, log: &[u8]) -> io::Result<()> {
    println!(rt; "LOG {name}")?;
    let mut out = [0u8; ROOM];
    let bytes = report(log, &mut out);
    rt.write_all(&out[..bytes])
}

// The worked log, and cut at several bytes.
fn show_cuts(rt: &impl Print, log: &[u8; 49]) -> io::Result<()> {
    show_log(rt, "worked", log)?;
    show_log(rt, "empty", &log[..0])?;
    show_log(rt, "cut in the settings", &log[..4])?;
    show_log(rt, "cut after the settings", &log[..5])?;
    show_log(rt, "cut between the readings", &log[..18])?;
    show_log(rt, "cut in the second reading", &log[..30])?;
    show_log(rt, "without settings", &log[5..])
}

// Items that are refused by their form, and limits of the program.
fn show_forms(rt: &impl Print) -> io::Result<()> {
    show_log(
        rt,
        "settings twice",
        b"\x01\x01\x02\x08\0\x01\x01\x02\x08\0",
    )?;
    show_log(
        rt,
        "of another dimension, and cut",
        b"\x01\x01\x02\x08\0\x12\x03",
    )?;
    show_log(rt, "of an unlisted kind", b"\x01\x01\x02\x08\0\x16")?;
    show_log(
        rt,
        "of an unlisted kind at the start",
        b"\x20\x01\x01\x02\x08\0",
    )?;
    show_log(rt, "settings of dimension 6", b"\x01\x06\x02\x08\0\xFF")?;
    show_log(rt, "room for 513 points", b"\x01\x01\x02\x01\x02\xFF")?;
    show_log(rt, "room for 512 points", b"\x01\x01\x02\0\x02")?;
    let long = [0u8; MOST_BYTES + 1];
    show_log(rt, "of 16385 bytes", &long)
}

// Readings that are refused, and a query off the plane.
fn show_contents(rt: &impl Print) -> io::Result<()> {
    show_log(
        rt,
        "a full table",
        b"\x01\x01\x02\x01\0\x11\x02\0\0\0\xFE\xFF\xFF\xFF\x04\0\0\0\x11\x03\0\0\0\xFD\xFF\xFF\xFF\x0A\0\0\0",
    )?;
    show_log(
        rt,
        "a coordinate of 1000001",
        b"\x01\x01\x02\x08\0\x11\x41\x42\x0F\0\0\0\0\0\x04\0\0\0",
    )?;
    show_log(
        rt,
        "a reading off the plane",
        b"\x01\x01\x02\x08\0\x11\x05\0\0\0\xFC\xFF\xFF\xFF\x04\0\0\0",
    )?;
    show_log(
        rt,
        "a query off the plane",
        b"\x01\x01\x02\x08\0\x21\x05\0\0\0\xFC\xFF\xFF\xFF",
    )
}

// The worked log with its readings numbered 7 and -3, and with a reading behind it whose number the
// first reading got; and the other way round, where each has its own.
fn show_numbered(rt: &impl Print) -> io::Result<()> {
    show_log(
        rt,
        "its readings numbered",
        b"\x01\x01\x02\x08\0\x71\x07\0\0\0\x03\0\0\0\xFD\xFF\xFF\xFF\x0A\0\0\0\x71\xFD\xFF\xFF\xFF\x02\0\0\0\xFE\xFF\xFF\xFF\x04\0\0\0\x21\x04\0\0\0\xFC\xFF\xFF\xFF\x21\x64\0\0\0\x9C\xFF\xFF\xFF",
    )?;
    show_log(
        rt,
        "number 0 behind one that got it",
        b"\x01\x01\x02\x08\0\x11\x03\0\0\0\xFD\xFF\xFF\xFF\x0A\0\0\0\x71\0\0\0\0\x02\0\0\0\xFE\xFF\xFF\xFF\x04\0\0\0",
    )?;
    show_log(
        rt,
        "number 0 before one that gets 1",
        b"\x01\x01\x02\x08\0\x71\0\0\0\0\x02\0\0\0\xFE\xFF\xFF\xFF\x04\0\0\0\x11\x03\0\0\0\xFD\xFF\xFF\xFF\x0A\0\0\0",
    )
}

pub fn show_logs(rt: &impl Print) -> io::Result<()> {
    show_cuts(
        rt,
        b"\x01\x01\x02\x08\0\x11\x03\0\0\0\xFD\xFF\xFF\xFF\x0A\0\0\0\x11\x02\0\0\0\xFE\xFF\xFF\xFF\x04\0\0\0\x21\x04\0\0\0\xFC\xFF\xFF\xFF\x21\x64\0\0\0\x9C\xFF\xFF\xFF",
    )?;
    show_log(
        rt,
        "its queries first",
        b"\x01\x01\x02\x08\0\x21\x04\0\0\0\xFC\xFF\xFF\xFF\x21\x64\0\0\0\x9C\xFF\xFF\xFF\x11\x03\0\0\0\xFD\xFF\xFF\xFF\x0A\0\0\0\x11\x02\0\0\0\xFE\xFF\xFF\xFF\x04\0\0\0",
    )?;
    show_forms(rt)?;
    show_contents(rt)?;
    show_numbered(rt)
}
