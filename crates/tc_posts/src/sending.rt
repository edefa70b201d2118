//! The lines of a script, sent to a desk one after the other.
ghost use Rattle.std.specs.Prelude.{◌≡◌, ℕ, List, [], ◌∷◌, ◌++◌, IfOk, OnOk, map};
ghost use Rattle.tc_posts.specs.Numbered.{shown};
ghost use Rattle.tc_posts.specs.Sending.{AreSent, AsksPlaces, IsLoop, IsSent, Sends, SendsAll};
ghost use Rattle.tc_posts.specs.Steps.{Step, answered, placed, refuses, said, sent};
ghost use Rattle.tc_posts.specs.Told.{Tells, answer_of};

use crate::completing::complete;
use crate::numbered::NumberedLine;
use crate::posting::{places_request, post_request};
use crate::told::{Told, Untellable, read_told};
use crate::used::used_numbers;
use std::alloc::Global;

/// What sends requests to a desk, and shows what it answers. What it did stands in a list.
pub trait Client {
    /// Why something could not be sent, read or shown.
    type Fault: Drop;

    /// This was done between two states, in this order.
    ghost did: { Self → List Step → Self → Type 0 };

    /// Sends a request, and reads the response to its end.
    fn send(&mut self, request: &[u8]) -> Result<Vec<u8>, Self::Fault>
        ensures { IfOk result (λ response. did self.old (sent request.now response.items ∷ []) self.new) };

    /// Says that these numbers are used, of which there is one at least.
    fn say_used(&mut self, used: &[u64]) -> Result<(), Self::Fault>
        ensures { OnOk result (did self.old (said used.now ∷ []) self.new) };

    /// Shows what a line was answered, and says how many lines are left out of that, if any are.
    fn show_answer(&mut self, line: &NumberedLine<'_>, told: Told) -> Result<(), Self::Fault>
        ensures { OnOk result (did self.old (answered (shown line.now) (answer_of told) ∷ []) self.new) };

    /// Shows what the question for the places was answered.
    fn show_places(&mut self, told: Told) -> Result<(), Self::Fault>
        ensures { OnOk result (did self.old (placed (answer_of told) ∷ []) self.new) };

    /// The fault of a response that says nothing, or of a request for which there was no memory.
    fn untellable(&self, why: Untellable) -> Self::Fault;

    ghost nothing: { (client : Self) → did client [] client };

    ghost joined: { (one two three : Self) (first then : List Step) → did one first two → did two then three → did one (first ++ then) three };
}

/// What a desk answers a request.
pub(crate) fn ask<C: Client>(
    alloc: Global,
    client: &mut C,
    request: &[u8],
) -> Result<Told, C::Fault>
    ensures { IfOk result (λ told. (response : List ℕ) × C.did client.old (sent request.now response ∷ []) client.new
        × Tells response (answer_of told)) }
{
    let response = client.send(request)?;
    match read_told(alloc, &response) {
        Ok(told) => Ok(told),
        Err(why) => Err(client.untellable(why)),
    }
}

/// Sends a line under its number to this port, and shows what it is answered. Says whether it was refused.
fn send_line<C: Client>(
    alloc: Global,
    client: &mut C,
    port: u16,
    line: &NumberedLine<'_>,
) -> Result<bool, C::Fault>
    ensures { IfOk result (λ refused. (steps : List Step) × C.did client.old steps client.new
        × IsSent port (shown line.now) steps × (refused ≡ refuses steps)) }
{
    let request = match post_request(alloc, port, line.line, line.number) {
        Ok(request) => request,
        Err(_) => return Err(client.untellable(Untellable::Memory)),
    };
    let first = ask(alloc, client, request.as_bytes())?;
    let told = complete(alloc, client, port, first)?;
    let refused = told.refusal != 0;
    client.show_answer(line, told)?;
    Ok(refused)
}

/// Sends each of these lines, and says whether any was refused. A line that is refused ends nothing.
fn send_lines<C: Client>(
    alloc: Global,
    client: &mut C,
    port: u16,
    lines: &[NumberedLine<'_>],
) -> Result<bool, C::Fault>
    ensures { IfOk result (λ refused. (steps : List Step) × C.did client.old steps client.new
        × AreSent port (map shown lines.now) steps × (refused ≡ refuses steps)) }
{
    let mut refused = false;
    for line in lines {
        refused |= send_line(alloc, client, port, line)?;
    }
    Ok(refused)
}

/// Asks for the places, and shows what is answered. Says whether that was refused.
fn ask_places<C: Client>(alloc: Global, client: &mut C, port: u16) -> Result<bool, C::Fault>
    ensures { IfOk result (λ refused. (steps : List Step) × C.did client.old steps client.new
        × AsksPlaces port steps × (refused ≡ refuses steps)) }
{
    let request = match places_request(alloc, port) {
        Ok(request) => request,
        Err(_) => return Err(client.untellable(Untellable::Memory)),
    };
    let told = ask(alloc, client, request.as_bytes())?;
    let refused = told.refusal != 0;
    client.show_places(told)?;
    Ok(refused)
}

/// Sends each of these lines, and then asks for the places. Says whether anything was refused.
fn send_all<C: Client>(
    alloc: Global,
    client: &mut C,
    port: u16,
    lines: &[NumberedLine<'_>],
) -> Result<bool, C::Fault>
    ensures { IfOk result (λ refused. (steps : List Step) × C.did client.old steps client.new
        × SendsAll port (map shown lines.now) steps refused) }
{
    let refused = send_lines(alloc, client, port, lines)?;
    let last = ask_places(alloc, client, port)?;
    Ok(refused | last)
}

/// Sends each of these lines, of which these numbers were used before, and says that first if any was. Nothing is sent then if all have to be new.
fn send_numbered<C: Client>(
    alloc: Global,
    client: &mut C,
    port: u16,
    lines: &[NumberedLine<'_>],
    used: &[u64],
    only_new: bool,
) -> Result<bool, C::Fault>
    ensures { IfOk result (λ refused. (steps : List Step) × C.did client.old steps client.new
        × Sends only_new port (map shown lines.now) used.now steps refused) }
{
    if used.is_empty() {
        return send_all(alloc, client, port, lines);
    }
    client.say_used(used)?;
    if only_new {
        return Ok(true);
    }
    send_all(alloc, client, port, lines)
}

/// Sends these lines to the desk at a port of this machine, each under its number, and then asks for the places. What each is answered is shown
/// before the next is sent; one that is refused ends nothing. Before the first line it asks which numbers were used before, and says which if any was: nothing is
/// sent then if all have to be new. Returns whether any line was refused, or none was sent for that.
///
/// # Errors
///
/// Those of the client: the first of them ends the loop.
pub fn send_script<C: Client>(
    alloc: Global,
    client: &mut C,
    port: u16,
    lines: &[NumberedLine<'_>],
    only_new: bool,
) -> Result<bool, C::Fault>
    ensures { IfOk result (λ refused. (steps : List Step) × C.did client.old steps client.new
        × IsLoop only_new port (map shown lines.now) steps refused) }
{
    let used = used_numbers(alloc, client, port, lines)?;
    send_numbered(alloc, client, port, lines, &used, only_new)
}
