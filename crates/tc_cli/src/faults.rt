//! What is said where the program could not begin or go on, and its exit status then.

use crate::serving::ServiceFault;
use tc_closed::ScriptFault;
use tc_copy::MOST_COPIES;
use tc_hex::problem;
use tc_host::{
    Because, CopyFault, Unusable, why_no_desk, why_no_opening, why_no_script, why_uncopied,
    why_unread, why_unwritable,
};
use tc_octets::ProfileFault;

/// The exit status of a fault: of usage, of a file or of memory.
pub(crate) const UNUSABLE: u8 = 2;

/// The exit status of a desk that has stopped as it was served.
const STOPPED: u8 = 3;

/// Says on the standard error what cannot be used. Where that cannot be written either, the status alone says it.
pub(crate) fn cannot_use(rt: &impl Eprint, name: &str) -> u8 {
    let _ = eprintln!(rt; "tcdesk: cannot use {name}");
    UNUSABLE
}

/// Says so of what has a name of its own, and why, where that is known.
fn cannot_use_so(rt: &HostRuntime, name: &str, because: Option<Because>) -> u8 {
    let status = cannot_use(rt, name);
    tell_because(rt, because);
    status
}

/// Says why, where that is known.
fn tell_because(rt: &HostRuntime, because: Option<Because>) {
    if let Some(because) = because {
        let words = because.words();
        let _ = eprintln!(rt; "tcdesk: because {words}");
    }
}

/// Says that a file cannot be read, and why.
pub(crate) fn cannot_read(rt: &HostRuntime, path: &str) -> u8 {
    cannot_use_so(rt, path, why_unread(rt, path))
}

/// Says that a script cannot be read, and why.
pub(crate) fn cannot_read_script(rt: &HostRuntime, path: &str) -> u8 {
    cannot_use_so(rt, path, why_no_script(rt, path))
}

/// Says that the text of a file is no profile, and why.
pub(crate) fn no_profile(rt: &HostRuntime, path: &str, fault: ProfileFault) -> u8 {
    let status = cannot_use(rt, path);
    if let Ok(words) = problem(rt.alloc(), fault) {
        let _ = eprintln!(rt; "tcdesk: because {words}");
    }
    status
}

/// The exit status of what ended with a fault that needs no name of a file. None where it needs one.
fn plain_status(rt: &HostRuntime, fault: ScriptFault) -> Option<u8> {
    match fault {
        ScriptFault::Output => Some(cannot_use(rt, "output")),
        ScriptFault::Memory => Some(cannot_use(rt, "memory")),
        ScriptFault::Config => Some(cannot_use(rt, "config")),
        ScriptFault::Script | ScriptFault::Tables | ScriptFault::Path => None,
    }
}

/// The exit status of a run of a script on a new desk, where this path gave no text, if one did not.
pub(crate) fn run_status(
    rt: &HostRuntime,
    ended: Result<u8, ScriptFault>,
    script: &str,
    path: &str,
) -> u8 {
    let fault = match ended {
        Ok(status) => return status,
        Err(fault) => fault,
    };
    match (plain_status(rt, fault), fault) {
        (Some(status), _) => status,
        (None, ScriptFault::Tables) => cannot_use(rt, "tables"),
        (None, ScriptFault::Path) => cannot_read(rt, path),
        (None, _) => cannot_read_script(rt, script),
    }
}

/// The same, on a desk that a file keeps.
pub(crate) fn kept_status(
    rt: &HostRuntime,
    ended: Result<u8, Unusable>,
    script: &str,
    file: &str,
    path: &str,
) -> u8 {
    match ended {
        Ok(status) => status,
        Err(why) if why.fault == ScriptFault::Tables => {
            cannot_use_so(rt, file, why.because.or(why_no_opening(rt, file)))
        }
        Err(why) => run_status(rt, Err(why.fault), script, path),
    }
}

/// The exit status of a report of the desk that a file keeps.
pub(crate) fn report_status(rt: &HostRuntime, printed: Result<(), Unusable>, file: &str) -> u8 {
    let why = match printed {
        Ok(()) => return 0,
        Err(why) => why,
    };
    match plain_status(rt, why.fault) {
        Some(status) => status,
        None => cannot_use_so(rt, file, why.because.or_else(|| why_no_desk(rt, file))),
    }
}

/// The exit status of a copy of the desk that a file keeps.
pub(crate) fn copy_status(
    rt: &HostRuntime,
    copied: Result<(), CopyFault>,
    file: &str,
    copy: &str,
) -> u8 {
    match copied {
        Ok(()) => 0,
        Err(CopyFault::Desk(because)) => {
            cannot_use_so(rt, file, because.or_else(|| why_uncopied(rt, file)))
        }
        Err(CopyFault::Copy(because)) => {
            cannot_use_so(rt, copy, because.or_else(|| why_unwritable(rt, copy)))
        }
        Err(CopyFault::Memory) => cannot_use(rt, "memory"),
        Err(CopyFault::Output) => cannot_use(rt, "output"),
        Err(CopyFault::Taken(beside)) => {
            let suffix = beside.suffix();
            let _ = eprintln!(rt; "tcdesk: {copy}{suffix} is there already");
            UNUSABLE
        }
        Err(CopyFault::Restless) => {
            let _ = eprintln!(rt; "tcdesk: {file} was too busy at each of {MOST_COPIES} copies");
            UNUSABLE
        }
    }
}

/// The exit status of a desk that was served, with a script and a database file of these names.
pub(crate) fn service_status(
    rt: &HostRuntime,
    ended: Result<u8, ServiceFault>,
    script: &str,
    file: &str,
) -> u8 {
    match ended {
        Ok(status) => status,
        Err(ServiceFault::Port(port)) => {
            let _ = eprintln!(rt; "tcdesk: cannot use port {port}");
            UNUSABLE
        }
        Err(ServiceFault::Input) => cannot_use(rt, "standard input"),
        Err(ServiceFault::Stopped(because)) => {
            let _ = eprintln!(rt; "tcdesk: {file} has stopped: its tables could not be written");
            tell_because(rt, because);
            STOPPED
        }
        Err(ServiceFault::Desk(why)) => kept_status(rt, Err(why), script, file, script),
    }
}
