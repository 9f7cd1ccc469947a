//! Cases of the tool: worked rows run on `dsu`, over files and a sink in memory.
//!
//! A line of `stdin` is one of these, where TEXT is as `case_texts` has it:
//!
//! - `file NAME TEXT`: the file holds the text from now on.
//! - `drop NAME`: there is no such file from now on.
//! - `fail read N`: the read call N of the next run fails, counted from 0.
//! - `fail put N BYTES`: the put call N of the next run fails after so many bytes.
//! - `dsu WORDS`: the tool runs on these words. Its status is printed, and what was put.
//! - `merge NAME WORDS`: `merge` runs on these words, and the file holds what was put from now on. The status
//!   is printed, and how many bytes were put.
//! - an empty line, or one that begins with `#`, which is printed as it stands.
#![tactic(auto)]

mod setting;

use anyhow::{Context, Result, bail};
use case_texts::text_of;
use setting::Setting;
use std::alloc::Global;
use top_call::Status;

fn name_of(status: Status) -> &'static str {
    match status {
        Status::Done => "Done",
        Status::NotProved => "NotProved",
        Status::Refused => "Refused",
        Status::Usage => "Usage",
        Status::ReadFailed => "ReadFailed",
        Status::WriteFailed => "WriteFailed",
        Status::NoMemory => "NoMemory",
        Status::Deep => "Deep",
    }
}

fn set_file(alloc: Global, setting: &mut Setting, rest: &str) -> Result<()> {
    let (name, written) = rest.split_once(' ').unwrap_or((rest, ""));
    let text = text_of(alloc, written)?;
    setting.hold(alloc, name, text)?;
    Ok(())
}

fn set_fault(setting: &mut Setting, rest: &str) -> Result<()> {
    let (call, numbers) = rest.split_once(' ').context("no call fails")?;
    match call {
        "read" => setting.fail_read(numbers.parse::<u64>()?)?,
        "put" => {
            let (put, bytes) = numbers.split_once(' ').context("no number of bytes")?;
            setting.fail_put(put.parse::<u64>()?, bytes.parse::<usize>()?)?;
        }
        _ => bail!("no such call"),
    }
    Ok(())
}

// What is printed for a line.
fn answer(alloc: Global, setting: &mut Setting, line: &str) -> Result<Option<String>> {
    if line.is_empty() || line.starts_with('#') {
        return Ok(Some(String::from_str(alloc, line)?));
    }
    let (command, rest) = line.split_once(' ').unwrap_or((line, ""));
    match command {
        "file" => set_file(alloc, setting, rest)?,
        "drop" => setting.lose(rest),
        "fail" => set_fault(setting, rest)?,
        "dsu" => return Ok(Some(shown(alloc, setting, rest)?)),
        "merge" => return Ok(Some(merged(alloc, setting, rest)?)),
        _ => bail!("no such command"),
    }
    Ok(None)
}

// The status of a run, and what was put.
fn shown(alloc: Global, setting: &mut Setting, words: &str) -> Result<String> {
    let (status, put) = setting.run(alloc, words)?;
    let name = name_of(status);
    let text = str::from_utf8(put.as_slice())?;
    Ok(format!(in alloc; "{name} {}\n{text}", put.len())?)
}

// The status of a merge, whose text a file then holds.
fn merged(alloc: Global, setting: &mut Setting, rest: &str) -> Result<String> {
    let (name, words) = rest.split_once(' ').context("no words")?;
    let line = format!(in alloc; "merge {words}")?;
    let (status, put) = setting.run(alloc, line.as_str())?;
    let shown = format!(in alloc; "{} {}", name_of(status), put.len())?;
    setting.hold(alloc, name, put)?;
    Ok(shown)
}

fn main(rt: HostRuntime) -> Result<()> {
    let mut setting = Setting::new(rt.alloc());
    for line in rt.lines(rt.alloc()) {
        if let Some(shown) = answer(rt.alloc(), &mut setting, line?.as_str())? {
            println!(rt; "{shown}")?;
        }
    }
    Ok(())
}
