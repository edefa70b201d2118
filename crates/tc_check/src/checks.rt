//! The text of a file, checked.
ghost use Rattle.std.specs.Prelude.{◌≡◌, ℕ, Bool, List, IfOk, map};
ghost use Rattle.std.specs.String.{string_bytes};
ghost use Rattle.tc_csv.specs.declared.faults.Fault.{Fault as SomeFault};
ghost use Rattle.tc_csv.specs.FaultLists.{first_fault};
ghost use Rattle.tc_check.specs.Checks.{AreFaults, Says, Tells, is_ok_told, lines_told, told_text};
ghost use Rattle.tc_check.specs.Findings.{Shows, first_line};
ghost use Rattle.tc_check.specs.Told.{fault_line};

use crate::findings::Findings;
use crate::notes::notes_of;
use crate::told::Sheet;
use std::alloc::{AllocError, Global};
use tc_csv::{Fault, procedure_faults, stack_faults};
use tc_types::LoadKind;

/// What is said of a text.
#[derive(Drop)]
pub struct Checked {
    /// `ok`; or where it is wrong, and why. Each line is ended by LF.
    pub text: String,
    /// The first line that says where it is wrong, without its LF.
    pub first: String,
    /// Whether nothing is wrong.
    pub is_ok: bool,
}

/// All that is wrong with a text of this kind.
fn faults_of(alloc: Global, kind: LoadKind, text: &[u8]) -> Result<Vec<Fault>, AllocError>
    ensures all { IfOk result (λ v. AreFaults kind text.now v.items) }
    ensures only { (faults : List SomeFault) → AreFaults kind text.now faults → IfOk result (λ v. v.items ≡ faults) }
    ensures first { IfOk result (λ v. Tells kind text.now (first_fault v.items)) }
{
    match kind {
        LoadKind::Stack => stack_faults(alloc, text),
        LoadKind::Procedure => procedure_faults(alloc, text),
    }
}

/// The lines of some faults.
fn fault_lines(alloc: Global, sheet: &Sheet<'_>, faults: &[Fault]) -> Result<Findings, AllocError>
    ensures { IfOk result (Shows (map (fault_line sheet.now.kind sheet.now.text.now) faults.now)) }
{
    let mut findings = Findings::new(alloc);
    for fault in faults {
        let line = sheet.fault_line(alloc, *fault)?;
        findings.add(line.as_str())?;
    }
    Ok(findings)
}

/// What is told of a text that breaks no rule, or of one with these faults.
fn findings_of(alloc: Global, sheet: &Sheet<'_>, faults: &[Fault]) -> Result<Findings, AllocError>
    ensures { IfOk result (Shows (lines_told sheet.now.kind sheet.now.text.now faults.now)) }
{
    if faults.is_empty() {
        notes_of(alloc, sheet)
    } else {
        fault_lines(alloc, sheet, faults)
    }
}

/// Whether nothing is wrong with a text of this kind with these faults, of which this is told.
fn is_ok_told(kind: LoadKind, faults: &[Fault], findings: &Findings) -> bool
    ensures { (text : List ℕ) → Shows (lines_told kind text faults.now) findings.now → result ≡ is_ok_told kind text faults.now }
{
    faults.is_empty() && (kind == LoadKind::Stack || findings.is_empty())
}

/// What is said of a text with these faults.
fn said(alloc: Global, sheet: &Sheet<'_>, faults: &[Fault]) -> Result<Checked, AllocError>
    ensures said { IfOk result (λ checked. string_bytes checked.text ≡ told_text sheet.now.kind sheet.now.text.now faults.now) }
    ensures first { IfOk result (λ checked. string_bytes checked.first ≡ first_line (lines_told sheet.now.kind sheet.now.text.now faults.now)) }
    ensures ok { IfOk result (λ checked. checked.is_ok ≡ is_ok_told sheet.now.kind sheet.now.text.now faults.now) }
{
    let findings = findings_of(alloc, sheet, faults)?;
    let is_ok = is_ok_told(sheet.kind, faults, &findings);
    let (first, told) = findings.into_texts();
    let mut text = String::new(alloc);
    if is_ok {
        text.push_str("ok\n")?;
    }
    text.push_str(told.as_str())?;
    Ok(Checked { text, first, is_ok })
}

/// Checks the text of a stack or of a procedure: `ok` where a load reads it, and else each record and field that is wrong, and why, in a line each.
pub fn check_text(alloc: Global, kind: LoadKind, text: &[u8]) -> Result<Checked, AllocError>
    ensures said { IfOk result (λ checked. Says kind text.now (string_bytes checked.text) (string_bytes checked.first) checked.is_ok) }
    ensures only { (told first : List ℕ) (is_ok : Bool) → Says kind text.now told first is_ok
        → IfOk result (λ checked. (string_bytes checked.text ≡ told) × (string_bytes checked.first ≡ first) × (checked.is_ok ≡ is_ok)) }
{
    let faults = faults_of(alloc, kind, text)?;
    let sheet = Sheet::of(alloc, kind, text)?;
    said(alloc, &sheet, &faults)
}
