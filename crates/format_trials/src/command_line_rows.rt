//! Lines and what they spell.
use command_line::{Command, read_words};
use std::alloc::{AllocError, Global};
use std::process::Abort;
use std::test::Fail;

// Lines, and the command of each with its numbers. A line's words stand apart by one blank each.
const COMMANDS: &str = "cutout d s [0:4,0:4,0:4] => cutout
cutout a/b.c-d_1 8_8_40 [-3:1,0:1,0:1] => cutout
write d s => write 1
write d s --workers=16 => write 16
write --workers=2 d s => write 2
write d --workers=9 s => write 9
update d s => update 1
update --workers=16 d s => update 16
generate d s 7 200 => generate 7 200 1
generate d s 0 0 => generate 0 0 1
generate d s 2147483647 4096 --workers=3 => generate 2147483647 4096 3
generate --workers=16 d s 7 200 => generate 7 200 16
reshard d s e t => reshard 1
reshard d s d t --workers=4 => reshard 4
downsample d s t --method=mode => downsample Mode 1
downsample d --method=mean s t => downsample Mean 1
downsample d s t --method=mean --workers=4 => downsample Mean 4
downsample --workers=16 d s t --method=mode => downsample Mode 16
verify d s => verify all
verify d s [0:4,0:4,0:4] => verify box
serve d --port=80 --connections=1 => serve 80 1
serve --connections=65536 d --port=0 => serve 0 65536
serve d --port=65535 --connections=2 => serve 65535 2";

// Lines that spell none.
const OTHERS: &str = "cutout d s [0:1,0:1]
cutout d ../s [0:1,0:1,0:1]
cutout d s [0:1,0:1,0:1] x
cutout d s [0:1,0:1,0:1] --workers=1
cutout -d s [0:1,0:1,0:1]
cutout d s
write d s --workers=0
write d s --workers=17
write d s --workers=01
write d s --workers=+1
write d s --workers=11111111111
write d s --workers=1 --workers=1
write d s --workers=
write d s --workers
write d s --workers 1
write d s --port=1
write d s --help
write d s -h
write d s --
write -- d s
write d s -
write d s x
write d  s
write d
update d
update d s x
update d ../s
update d s --workers=17
update d s --port=1
generate d s 2147483648 1
generate d s 1 4097
generate d s 01 1
generate d s 1 -1
generate d s 1
generate d s 1 2 3
generate d ../s 1 2
generate d s 1 2 --workers=17
generate d s 1 2 --port=1
generate d s 1 2 --workers=1 --workers=1
reshard d s e
reshard d s e t u
reshard d s e ../t
reshard d s ../e t
reshard d s e t --workers=0
downsample d s t
downsample d s --method=mode
downsample d s t u --method=mode
downsample d s ../t --method=mode
downsample d s t --method=median
downsample d s t --method=
downsample d s t --method=mode --method=mode
downsample d s t --method=mode --workers=17
downsample d s t --method=mode --port=1
downsample d s t --workers=1
downsample d s t --method=mode --workers=1 --workers=1
verify d s [0:4,0:4]
verify d s [0:4,0:4,0:4] x
verify d
verify d ../s
verify d s --workers=1
verify d s [0:4,0:4,0:4] --workers=1
serve d --port=65536 --connections=2
serve d --port=1 --connections=0
serve d --port=1 --connections=65537
serve d --port=1
serve d --connections=1
serve d --port=1 --port=1
serve d --connections=1 --connections=1
serve d --port= --connections=1
serve d --port=1 --connections=
serve d --port=1 --connections=1 --port=1
serve d --port=1 --connections=1 --workers=1
serve d s --port=1 --connections=1
serve --port=1 --connections=1
serve d --Port=1 --connections=1
help
--workers=1 write d s
";

fn read_line(alloc: Global, line: &str) -> Result<Option<Command>, Fail> {
    let mut words = Vec::new(alloc);
    for word in line.split(' ') {
        words.push(String::from_str(alloc, word)?)?;
    }
    Ok(read_words(alloc, &words)?)
}

fn print_command(alloc: Global, command: &Command) -> Result<String, AllocError> {
    match command {
        Command::Cutout { .. } => String::from_str(alloc, "cutout"),
        Command::Write { workers, .. } => format!(in alloc; "write {workers}"),
        Command::Update { workers, .. } => format!(in alloc; "update {workers}"),
        Command::Generate {
            number,
            writes,
            workers,
            ..
        } => format!(in alloc; "generate {number} {writes} {workers}"),
        Command::Reshard { workers, .. } => format!(in alloc; "reshard {workers}"),
        Command::Downsample {
            method,
            workers,
            ..
        } => format!(in alloc; "downsample {method:?} {workers}"),
        Command::Verify { part: None, .. } => String::from_str(alloc, "verify all"),
        Command::Verify { part: Some(_), .. } => String::from_str(alloc, "verify box"),
        Command::Serve {
            port,
            connections,
            ..
        } => format!(in alloc; "serve {port} {connections}"),
    }
}

fn check_command(rt: &impl Abort, alloc: Global, row: &str) -> Result<(), Fail> {
    let (line, wanted) = row.split_once(" => ").ok_or("a row")?;
    let command = read_line(alloc, line)?.ok_or("a command")?;
    let found = print_command(alloc, &command)?;
    assert!(rt; found.as_str() == wanted, "at {line}");
    Ok(())
}

#[test]
fn reads_the_lines_of_the_usage(rt: HostRuntime) -> Result<(), Fail> {
    for row in COMMANDS.split('\n') {
        check_command(&rt, rt.alloc(), row)?;
    }
    Ok(())
}

#[test]
fn reads_no_other_line(rt: HostRuntime) -> Result<(), Fail> {
    let alloc = rt.alloc();
    for line in OTHERS.split('\n') {
        assert!(rt; read_line(alloc, line)?.is_none(), "at {line}");
    }
    assert!(rt; read_words(alloc, &[])?.is_none());
    Ok(())
}

fn reads_name(alloc: Global, len: usize) -> Result<bool, Fail> {
    let line = format!(in alloc; "write {:0>len$} s", "d")?;
    Ok(read_line(alloc, &line)?.is_some())
}

#[test]
fn reads_names_of_at_most_200_bytes(rt: HostRuntime) -> Result<(), Fail> {
    assert!(rt; reads_name(rt.alloc(), 200)?);
    assert!(rt; !reads_name(rt.alloc(), 201)?);
    Ok(())
}
