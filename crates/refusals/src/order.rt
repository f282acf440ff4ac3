// Document 01, "Numbers": the orders of refusals, each in one place.
#![tactic(auto, unfolding(numbers::specs::Numbers::is_accepted, numbers::specs::Numbers::row_of, seq::specs::Words::first_or, seq::specs::Words::when))]

ghost use Rattle.std.specs.Prelude.{◌≡◌, true, false, List, [], ◌∷◌, ℕ, ◌≤◌, length};
ghost use Rattle.seq.specs.Words.{first_or};
ghost use Rattle.numbers.specs.Sizes.{legend_size};
ghost use Rattle.numbers.specs.declared.Refusal.TheVariants.{Accepted};
ghost use Rattle.calls.specs.declared.State.{State};
ghost use Rattle.calls.specs.Core.{Stores, Core, sizes_ok, laid_out};
ghost use Rattle.calls.specs.Commands.{issued};
ghost use Rattle.calls.specs.Contents.{core_ok};
ghost use Rattle.calls.specs.Effects.{load_check};
ghost use Rattle.calls.specs.Calls.{bad_record, check_of, command_tests, compose_tests, release_tests, tally_tests};
ghost use Rattle.calls.specs.Start.{skip_ok, start_tests};
ghost use Rattle.refusals.specs.Verdict.{verdict};

use crate::commands::{is_load, is_quiet, is_unlisted, replies};
use calls::{Asked, Command, Fixed, Load, Sheet, State};
use counters::{Counters, Tally};
use form::Layout;
use numbers::{Cause, Refusal, Sense};

fn bad_record(command: Command, sent: &[u8]) -> bool
    ensures { (b : ℕ) (reply : List ℕ) → result ≡ bad_record command (issued b sent.now reply) }
{
    match command {
        Command::Write(motion) => !(1..=numbers::Stores::LINE_CELLS).contains(&sent.len()),
        Command::Loads(load) => numbers::Stores::LEGEND_BYTES < sent.len(),
        Command::Move(motion) => false,
        Command::Controls(control) => false,
        Command::Unlisted => false,
    }
}

#[tactic(auto, unfolding(calls::specs::Effects::load_check))]
fn load_check(fixed: Fixed, load: Load, sent: &[u8]) -> Result<(), Cause>
    requires { length sent.now ≤ legend_size }
    ensures { (s : State) → s.fixed ≡ fixed → result ≡ load_check s load sent.now }
{
    match load {
        Load::Fcb => form::fcb::fcb_check(fixed.length, sent),
        Load::TranslateTable => copies::table_check(sent),
        Load::CopyModification => legends::legend_check(sent),
        Load::OverlaySequence => copies::sequence_check(sent),
        Load::CopyNumber => copies::number_check(sent),
    }
}

#[tactic(auto, unfolding(calls::specs::Calls::check_of))]
fn check_of(fixed: Fixed, command: Command, sent: &[u8]) -> Result<(), Cause>
    requires { (b : ℕ) (reply : List ℕ) → bad_record command (issued b sent.now reply) ≡ false }
    ensures { (s : State) (b : ℕ) (reply : List ℕ) → s.fixed ≡ fixed
        → result ≡ check_of s command (issued b sent.now reply) }
{
    match command {
        Command::Write(motion) => Ok(()),
        Command::Move(motion) => Ok(()),
        Command::Controls(control) => Ok(()),
        Command::Loads(load) => load_check(fixed, load, sent),
        Command::Unlisted => Ok(()),
    }
}

// Refusals 1, 4, 2, 5, 3 and 8, on contents that a printer can have: 9 is already passed. Refusal 11 comes last in the order, but no command
// completes two pages.
pub fn command_refusal(
    fixed: Fixed,
    sheet: Sheet,
    command: Command,
    sent: &[u8],
    reply: &[u8],
) -> Result<(), Refusal>
    ensures { (b : ℕ) (k : Core) → k.state.fixed ≡ fixed → k.state.sheet ≡ sheet → core_ok k ≡ true
        → result ≡ verdict (first_or Accepted (command_tests k command (issued b sent.now reply.now))) }
{
    if is_unlisted(command) {
        return Err(Refusal::NotListed);
    }
    if sheet.waiting & !is_quiet(command) {
        return Err(Refusal::PageWaiting);
    }
    if bad_record(command, sent) {
        return Err(Refusal::BadRecord);
    }
    if is_load(command) & calls::is_started(sheet) {
        return Err(Refusal::PageStarted);
    }
    check_of(fixed, command, sent).map_err(Refusal::LoadCheck)?;
    if replies(command) & (reply.len() < Sense::REPLY_BYTES) {
        return Err(Refusal::TooShort);
    }
    Ok(())
}

// Refusal 6: no page is waiting. 7: no copy has this index. 8: the output is shorter than the page's lines. `form` is the state's form, laid out.
pub fn compose_refusal(state: State, form: Layout, copy: u32, out: &[u8]) -> Result<(), Refusal>
    ensures { (m : Stores) → form ≡ laid_out state → core_ok (record { state = state; stores = m }) ≡ true
        → result ≡ verdict (first_or Accepted (compose_tests (record { state = state; stores = m }) copy out.now)) }
{
    if !state.sheet.waiting {
        return Err(Refusal::NoPage);
    }
    let last = copies::copy_count(&state.copies.pairs, state.copies.count);
    if !(1..=u32::from(last)).contains(&copy) {
        return Err(Refusal::BadIndex);
    }
    if out.len() < numbers::Stores::LINE_BYTES * usize::from(form.lines) {
        return Err(Refusal::TooShort);
    }
    Ok(())
}

// Refusal 6: no page is waiting. 13: as many pages are out as there may be.
pub fn release_refusal(state: State) -> Result<(), Refusal>
    ensures { (m : Stores) → core_ok (record { state = state; stores = m }) ≡ true
        → result ≡ verdict (first_or Accepted (release_tests (record { state = state; stores = m }))) }
{
    if !state.sheet.waiting {
        return Err(Refusal::NoPage);
    }
    if state.counters.most_between() {
        return Err(Refusal::MostBetween);
    }
    Ok(())
}

// Refusal 12: no page is between the station that a report is for and the one before it.
pub fn tally_refusal(counters: Counters, tally: Tally) -> Result<(), Refusal>
    ensures { (k : Core) → k.state.counters ≡ counters → core_ok k ≡ true → result ≡ verdict (first_or Accepted (tally_tests k tally)) }
{
    if counters.none_between(tally) {
        return Err(Refusal::NoneBetween);
    }
    Ok(())
}

#[tactic(auto, unfolding(calls::specs::Start::skip_ok))]
fn skip_ok(skip: u32) -> bool
    ensures { result ≡ skip_ok skip }
{
    (skip == Fixed::NEW_WAY) | (skip == Fixed::OLD_WAY)
}

// Refusal 9: a store has a wrong size, as `sized` says. 10: the form length, a pitch or the way of skipping is not listed.
pub fn start_refusal(sized: bool, asked: Asked) -> Result<(), Refusal>
    ensures { (m : Stores) → sizes_ok m ≡ sized → result ≡ verdict (first_or Accepted (start_tests asked m)) }
{
    if !sized {
        return Err(Refusal::BadStore);
    }
    if !(form::fcb::form_ok(asked.length, asked.pitches) & skip_ok(asked.skip)) {
        return Err(Refusal::BadForm);
    }
    Ok(())
}
