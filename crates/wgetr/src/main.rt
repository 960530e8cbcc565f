//! The program wgetr: it retrieves a site recursively, puts its pages into a folder, and prints a report. What it makes of
//! its arguments and its streams is stated at `retriever::run_program`; the functions here only name them, and what the
//! system gives.
#![tactic(auto)]

use address::Address;
use host_system::{EarlyRun, HostSystem, PartThreads, PartsDir, RejectedFile};
use program_io::{Output, SharedFailures, StandIns, jar_of, limit_lookups, starts_of};
use progress::{BehindLine, ProgressLine};
use record_journal::Saving;
use requests::Jar;
use retriever::{arguments, refuse_cookies, refuse_starts, run_program, targets_of, with_starts};
use run_index::IndexRun;
use std::fs::Files;
use std::io::{IsTerminal, Stdout, Write};
use std::process::ExitCode;
use std::sync::Wait;
use std::time::Clock;
use tcp_connect::{Hosts, KeptConnections};

// What a run begins with: its STARTs, and its cookies.
#[derive(Drop)]
struct Inputs {
    starts: Vec<Address>,
    jar: Option<Jar>,
}

// What takes the report of a run and the log of its rejected links.
#[derive(Drop)]
struct Outputs<'a, R: Wait + Files> {
    report: Output<Stdout, R::File>,
    rejected: RejectedFile<'a, R>,
    is_quiet: bool,
}

// Writes that memory ran out before there was an order. The status of that.
fn out_of_memory<W: Write>(writer: &mut W) -> u8 {
    let _ = writer.write_all(b"stopped memory\n");
    1
}

// Writes what failed to standard error. The status is this one.
fn failed<R: Wait>(rt: &R, host: &HostRuntime, failures: &SharedFailures, status: u8) -> u8 {
    failures.tell(rt, &mut host.stderr());
    status
}

// Reads what a run begins with, or writes why there is none, and gives the status of that.
fn read_inputs<R: Files + Clock + Wait, W: Write>(
    rt: &R,
    host: &HostRuntime,
    failures: &SharedFailures,
    refusals: &mut W,
) -> Result<Inputs, u8> {
    let args = arguments(host, host.alloc());
    let starts = match starts_of(rt, host.alloc(), failures, args, &mut host.stdin()) {
        Ok(starts) => starts,
        Err(why) => {
            let args = arguments(host, host.alloc());
            let status = refuse_starts(host.alloc(), why, args, refusals, &mut host.stderr());
            return Err(failed(rt, host, failures, status));
        }
    };
    let args = arguments(host, host.alloc());
    match jar_of(rt, host.alloc(), failures, args, starts.as_slice()) {
        Ok(jar) => Ok(Inputs { starts, jar }),
        Err(fault) => {
            let status = refuse_cookies(host.alloc(), fault, refusals);
            Err(failed(rt, host, failures, status))
        }
    }
}

// The same. What is wrong before the words are an order goes to standard output, unless they say that nothing does.
fn inputs_of_words<R: Files + Clock + Wait>(
    rt: &R,
    host: &HostRuntime,
    failures: &SharedFailures,
) -> Result<Inputs, u8> {
    let Ok(first) = targets_of(host.alloc(), arguments(host, host.alloc())) else {
        return Err(out_of_memory(&mut host.stdout()));
    };
    match Output::open(rt, failures, host.stdout(), first.is_quiet, None) {
        Some(mut refusals) => read_inputs(rt, host, failures, &mut refusals),
        None => Err(3),
    }
}

// Opens what takes report and log, or writes why that can't be, and gives the status of that.
fn open_outputs<'a, R: Files + Wait>(
    rt: &'a R,
    host: &HostRuntime,
    failures: &'a SharedFailures,
    starts: &[Address],
) -> Result<Outputs<'a, R>, u8> {
    let args = with_starts(host.alloc(), arguments(host, host.alloc()), starts);
    let Ok(targets) = targets_of(host.alloc(), args) else {
        return Err(out_of_memory(&mut host.stdout()));
    };
    let is_quiet = targets.is_quiet;
    let Some(mut report) = Output::open(rt, failures, host.stdout(), is_quiet, targets.file())
    else {
        return Err(failed(rt, host, failures, 3));
    };
    match RejectedFile::open(rt, failures, targets.into_rejected(), &mut report) {
        Some(rejected) => Ok(Outputs {
            report,
            rejected,
            is_quiet,
        }),
        None => Err(failed(rt, host, failures, 3)),
    }
}

fn main(rt: HostRuntime) -> ExitCode {
    // Before anything is opened, so that no file of the run takes the place of a stream that is closed.
    let stand_ins = StandIns::open(&rt);
    let failures = SharedFailures::new(rt.alloc());
    let Inputs { starts, jar } = match inputs_of_words(&rt, &rt, &failures) {
        Ok(inputs) => inputs,
        Err(status) => return ExitCode::from(status),
    };
    let outputs = match open_outputs(&rt, &rt, &failures, starts.as_slice()) {
        Ok(outputs) => outputs,
        Err(status) => return ExitCode::from(status),
    };
    let Outputs {
        mut report,
        mut rejected,
        is_quiet,
    } = outputs;
    let takes_failures = report.takes_failures();
    let hosts = Hosts::new(rt.alloc());
    let args = arguments(&rt, rt.alloc());
    if limit_lookups(&rt, rt.alloc(), &hosts, args, starts.as_slice()).is_err() {
        return ExitCode::from(out_of_memory(&mut report));
    }
    let kept = KeptConnections::new(rt.alloc());
    let is_shown = rt.stderr().is_terminal() && !is_quiet;
    let progress = ProgressLine::new(&rt, is_shown);
    let saving = Saving::new();
    let crew = PartThreads::new(&rt, &rt);
    let parts = PartsDir::new(rt.alloc());
    let early = EarlyRun::new(rt.alloc());
    let index = IndexRun::new(rt.alloc());
    let network = HostSystem::new(
        &rt,
        rt.alloc(),
        &hosts,
        &kept,
        &progress,
        &saving,
        &crew,
        &parts,
        &early,
        &index,
        &failures,
        jar,
    );
    let mut writer = BehindLine::new(report, &progress);
    let status = run_program(
        &rt,
        rt.alloc(),
        &network,
        with_starts(rt.alloc(), arguments(&rt, rt.alloc()), starts.as_slice()),
        &mut rt.stdin(),
        &mut writer,
        &mut rt.stderr(),
        &mut rejected,
    );
    let status = rejected.status(status, &mut writer);
    saving.end(&rt);
    parts.remove(&rt);
    failures.say_unasked(&rt, &kept);
    if takes_failures {
        failures.tell(&rt, &mut writer);
    } else {
        failures.tell(&rt, &mut rt.stderr());
    }
    drop(stand_ins);
    ExitCode::from(status)
}
