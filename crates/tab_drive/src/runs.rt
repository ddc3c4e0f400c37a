//! The top call: one command over a source, a sink, disks and a clock. A key is standard Base64 (RFC 4648, section 4).
ghost use Rattle.std.specs.Prelude.{◌≡◌, ◌≢◌, ◌⊎◌, ◌<◌, ◌-◌, ◌^◌, ℕ, List, [], ◌≤◌, length, map, flat_map, string_bytes, vec_len, Contains, MatchOption, IfOk, IfErr, IsTrue, IsFalse, Some, None};
ghost use Rattle.std.specs.List.{All, AllZip, list_all};
ghost use Rattle.tab_outside.specs.Faults.{Rose};
ghost use Rattle.tab_auth.specs.declared.signatures.Keys.{Keys};
ghost use Rattle.tab_history.specs.Legality.{Legal};
ghost use Rattle.tab_history.specs.Followed.{FollowedWell, FollowedStill};
ghost use Rattle.tab_history.specs.Ticks.{TicksRise, TicksTellRows};
ghost use Rattle.tab_history.specs.Numbers.{NumbersRise, MadeNew, DropsHide};
ghost use Rattle.tab_core.specs.Courses.{Course, first_state, first_course};
ghost use Rattle.tab_core.specs.Making.{IsYard, IsFirstFilled, RoseAt};
ghost use Rattle.tab_core.specs.Points.{Holds};
ghost use Rattle.tab_drive.specs.Runs.{traffic, TookLine, usage_line, memory_line};
ghost use Rattle.tab_drive.specs.Commands.{IsDrive, IsNoDrive, IsInit, IsNoCommand, IsNamed, NamesAccount, NamesKey, is_account, is_account_byte, key_of, status_of, line_of, Drives, SaidOnly, exit_statuses};
ghost use Rattle.tab_drive.specs.Completeness.{IsServable};
ghost use Rattle.tab_drive.specs.Inits.{Inits};

use crate::inits::init;
use crate::outgoing::write_pieces;
use crate::serving::{RunStop, serve};
use itoa::Buffer;
use std::alloc::Global;
use tab_auth::Keys;
use tab_edm::{BytesValue, TextValue};
use tab_history::History;
use tab_keys::Memory;
use tab_outside::{Clock, Disk, Sink, Source};

/// How a run ended.
#[derive(Drop)]
pub struct Ended {
    /// The exit status: 0 where the command ended, 1 for words that are no command, 2 for a refused event, 3 where the
    /// source failed, 4 where the sink did, 5 where a disk did, 7 where no memory was found, and 8 where a disk is not
    /// empty on which a store was to be made.
    pub status: u8,
    /// What was asked and answered, from the opening on.
    pub history: History,
    /// How many events were answered whole.
    pub done: u64,
}

const USAGE: &[u8] = b"usage: init / drive ACCOUNT KEY / load ACCOUNT COUNT / show\n";

/// Runs one command: `init` makes a store over empty disks, of which disks 0 and 1 are the map's, 2 and 3 the names', and
/// 4 + 2s and 5 + 2s those of server s; `drive ACCOUNT KEY` serves the schedule that the source gives, over a store in memory.
pub fn run<S: Source, K: Sink, D: Disk, C: Clock>(
    alloc: Global,
    words: &[String],
    input: &mut S,
    output: &mut K,
    yard: &mut Vec<D>,
    clock: &mut C,
) -> Ended
    // The history is that of one ordered map.
    ensures legal { Legal first_state result.history }

    // Each query that was followed to its end gave what it should: rows in their order, each of them right, and all that
    // stayed unwritten meanwhile. Where nothing was written it gave just what it asks for, in few pages.
    ensures followed { FollowedWell first_state result.history }
    ensures still { FollowedStill first_state result.history }

    // Of two changes of one key the later has the greater tick, so an ETag tells one version of a row.
    ensures ticks { TicksRise first_state result.history }
    ensures versions { TicksTellRows first_state result.history }

    // A table that is made has a new number, and no row. So the rows of a table that was dropped are never found again.
    ensures numbers { NumbersRise first_state result.history }
    ensures made { MadeNew first_state result.history }
    ensures dropped { DropsHide first_state result.history }

    // The schedule was read, its history made and its replies written, up to what stopped it.
    ensures drives { (keys : Keys) → IsDrive (map string_bytes words.now) keys → Drives keys (C.moment clock.new)
        (traffic (S.left input.old) (S.left input.new) (K.taken output.old) (K.taken output.new))
        (K.faults output.old) (K.faults output.new) result.status result.history result.done }

    // No other status comes.
    ensures status { Contains exit_statuses result.status }

    // A whole schedule is served to its end where neither source nor sink fails, if memory is found.
    ensures complete { (keys : Keys) (bytes : List ℕ) → IsDrive (map string_bytes words.now) keys → S.left input.old ≡ Some bytes
        → IsServable bytes → (Rose (S.faults input.old) (S.faults input.new) → ⊥) → (Rose (K.faults output.old) (K.faults output.new) → ⊥)
        → (result.status ≡ 0) ⊎ (result.status ≡ 7) }

    // `init` reads nothing and says why it is refused: the first disk that is not empty decides, unless one up to it does not
    // tell its length.
    ensures inits { IsInit (map string_bytes words.now) → Inits D.tells D.watch D.faults yard.old.items yard.new.items
        (traffic (S.left input.old) (S.left input.new) (K.taken output.old) (K.taken output.new))
        (K.faults output.old) (K.faults output.new) result.status result.history result.done }
    ensures not_empty { IsInit (map string_bytes words.now) → D.tells → (disk : ℕ) → IsFirstFilled D.watch yard.old.items disk
        → (result.status ≡ 8) ⊎ (result.status ≡ 5) }
    ensures by_init { (result.status ≡ 5) ⊎ (result.status ≡ 8) → IsInit (map string_bytes words.now) }

    // Where it ends well, the disks hold a store that was just made. Over empty disks it does, if none fails and memory is found.
    ensures holds { IsInit (map string_bytes words.now) → D.honest → IsYard (vec_len yard.old) → result.status ≡ 0
        → Holds D.watch first_course yard.new.items }
    ensures complete_init { IsInit (map string_bytes words.now) → D.tells → All (λ disk. length (D.watch.seen disk) ≡ 0) yard.old.items
        → ((disk : ℕ) → RoseAt D.faults yard.old.items yard.new.items disk → ⊥) → (result.status ≡ 0) ⊎ (result.status ≡ 7) }

    // Disks that hold a store hold it still. No other command touches them yet.
    ensures kept { D.honest → (course : Course) → Holds D.watch course yard.old.items → Holds D.watch course yard.new.items }
    ensures yard { (IsInit (map string_bytes words.now) → ⊥) → yard.new.items ≡ yard.old.items }
    ensures later { AllZip (λ old new. D.faults old ≤ D.faults new) yard.old.items yard.new.items }

    // Other words are refused, and nothing is read. Only where a key had to be read may memory have been wanting.
    ensures words { result.status ≡ 1 → IsNoCommand (map string_bytes words.now) }
    ensures refused { IsNoCommand (map string_bytes words.now) → (result.status ≡ 1) ⊎ ((result.status ≡ 7) × NamesKey (map string_bytes words.now) × SaidOnly
        (traffic (S.left input.old) (S.left input.new) (K.taken output.old) (K.taken output.new))
        (K.faults output.old) (K.faults output.new) memory_line result.history result.done) }
    ensures usage { result.status ≡ 1 → SaidOnly
        (traffic (S.left input.old) (S.left input.new) (K.taken output.old) (K.taken output.new))
        (K.faults output.old) (K.faults output.new) usage_line result.history result.done }
    ensures read_fault { result.status ≡ 3 → Rose (S.faults input.old) (S.faults input.new) }
    ensures write_fault { result.status ≡ 4 → Rose (K.faults output.old) (K.faults output.new) }
{
    if is_init(words) {
        return init(alloc, output, yard);
    }
    match keys_of(alloc, words) {
        Ok(Some(keys)) => drive(alloc, &keys, clock.now(), input, output),
        Ok(None) => said_only(alloc, 1, USAGE, output),
        Err(_) => said_only(alloc, 7, OUT_OF_MEMORY, output),
    }
}

/// Serves a schedule for an account, and writes the last line.
fn drive<S: Source, K: Sink>(
    alloc: Global,
    keys: &Keys,
    moment: u64,
    input: &mut S,
    output: &mut K,
) -> Ended
    ensures legal { Legal first_state result.history }
    ensures drives { Drives keys.now moment
        (traffic (S.left input.old) (S.left input.new) (K.taken output.old) (K.taken output.new))
        (K.faults output.old) (K.faults output.new) result.status result.history result.done }
    ensures status { Contains exit_statuses result.status }
    ensures complete { (bytes : List ℕ) → S.left input.old ≡ Some bytes
        → IsServable bytes → (Rose (S.faults input.old) (S.faults input.new) → ⊥) → (Rose (K.faults output.old) (K.faults output.new) → ⊥)
        → (result.status ≡ 0) ⊎ (result.status ≡ 7) }
    ensures command { result.status ≢ 1 }
    ensures read_fault { result.status ≡ 3 → Rose (S.faults input.old) (S.faults input.new) }
    ensures write_fault { result.status ≡ 4 → Rose (K.faults output.old) (K.faults output.new) }
{
    match serve(alloc, keys, moment, input, output) {
        Ok(served) => {
            write_last_line(output, served.stop, served.done);
            Ended {
                status: status_of(served.stop),
                history: served.history,
                done: served.done,
            }
        }
        Err(_) => said_only(alloc, 7, OUT_OF_MEMORY, output),
    }
}

/// Writes one line, and ends with that status.
pub(crate) fn said_only<K: Sink>(alloc: Global, status: u8, line: &[u8], output: &mut K) -> Ended
    ensures status { result.status ≡ status }
    ensures history { result.history ≡ [] }
    ensures done { result.done ≡ 0 }
    ensures line { TookLine (K.taken output.old) (K.taken output.new) (K.faults output.old) (K.faults output.new) line.now }
    ensures later { K.faults output.old ≤ K.faults output.new }
{
    write_line(output, &[line]);
    Ended {
        status,
        history: History::new(alloc),
        done: 0,
    }
}

pub(crate) const OUT_OF_MEMORY: &[u8] = b"out of memory\n";

/// Whether the words are those of a command.
pub fn is_command(alloc: Global, words: &[String]) -> Result<bool, Memory>
    ensures yes { IfOk result (λ is. IsTrue is → IsNoCommand (map string_bytes words.now) → ⊥) }
    ensures no { IfOk result (λ is. IsFalse is → IsNoCommand (map string_bytes words.now)) }
{
    if is_init(words) {
        return Ok(true);
    }
    Ok(keys_of(alloc, words)?.is_some())
}

/// Whether the words are the one word `init`.
fn is_init(words: &[String]) -> bool
    ensures yes { IsTrue result → IsInit (map string_bytes words.now) }
    ensures no { IsFalse result → IsInit (map string_bytes words.now) → ⊥ }
{
    let [command] = words else {
        return false;
    };
    command.as_str() == "init"
}

/// The account and the key of the words `drive ACCOUNT KEY`.
fn keys_of(alloc: Global, words: &[String]) -> Result<Option<Keys>, Memory>
    ensures asked { IfErr result (λ _. NamesAccount (map string_bytes words.now)) }
    ensures found { IfOk result (λ keys. MatchOption keys (IsNoDrive (map string_bytes words.now)) (IsDrive (map string_bytes words.now))) }
{
    let [command, account, key] = words else {
        return Ok(None);
    };
    if command.as_str() == "drive" && is_account(account.as_str()) {
        named_keys(alloc, account.as_str(), key.as_str())
    } else {
        Ok(None)
    }
}

/// The account of that name with the key that a word says, if it says one.
fn named_keys(alloc: Global, name: &str, word: &str) -> Result<Option<Keys>, Memory>
    ensures { IfOk result (λ keys. MatchOption keys (key_of word.now ≡ None) (IsNamed name.now word.now)) }
{
    let Some(key) = key_of(alloc, word)? else {
        return Ok(None);
    };
    let account = TextValue::new(String::from_str(alloc, name)?);
    Ok(Some(Keys { account, key }))
}

/// The key that a word says: none for an open account, and otherwise its bytes in standard Base64.
fn key_of(alloc: Global, word: &str) -> Result<Option<Option<BytesValue>>, Memory>
    ensures { IfOk result (λ key. key ≡ key_of word.now) }
{
    if word == "-" {
        return Ok(Some(None));
    }
    match BytesValue::from_base64(alloc, word) {
        Ok(Some(key)) => Ok(Some(Some(key))),
        Ok(None) => Ok(None),
        Err(_) => Err(Memory),
    }
}

/// The fewest bytes that the name of an account has.
pub const SHORTEST_ACCOUNT: usize = 3;

/// The most bytes that the name of an account has.
pub const LONGEST_ACCOUNT: usize = 24;

/// Whether the text is lower-case ASCII letters and digits, as few and as many as an account's name has.
#[tactic(auto, unfolding(crate::specs::Commands::is_account))]
fn is_account(name: &str) -> bool
    ensures { result ≡ is_account name.now }
{
    if name.len() < SHORTEST_ACCOUNT {
        return false;
    }
    if name.len() > LONGEST_ACCOUNT {
        return false;
    }
    are_account_bytes(name.as_bytes())
}

fn are_account_bytes(bytes: &[u8]) -> bool
    ensures { result ≡ list_all is_account_byte bytes.now }
{
    bytes.iter().all(|b| is_account_byte(*b))
}

fn is_account_byte(b: u8) -> bool
    ensures { result ≡ is_account_byte b }
{
    b.is_ascii_lowercase() || b.is_ascii_digit()
}

/// The exit status of a schedule that stopped so.
fn status_of(stop: RunStop) -> u8
    ensures { result ≡ status_of stop }
{
    match stop {
        RunStop::End => 0,
        RunStop::Refused => 2,
        RunStop::ReadFault => 3,
        RunStop::WriteFault => 4,
        RunStop::Memory => 7,
    }
}

/// Writes the last line of a schedule that stopped so behind this many events.
fn write_last_line<K: Sink>(output: &mut K, stop: RunStop, done: u64)
    requires { done < 2 ^ 64 - 1 }
    ensures line { TookLine (K.taken output.old) (K.taken output.new) (K.faults output.old) (K.faults output.new) (line_of stop done) }
    ensures later { K.faults output.old ≤ K.faults output.new }
{
    match stop {
        RunStop::End | RunStop::WriteFault => {}
        RunStop::Refused => {
            let mut buffer = Buffer::new();
            let number = buffer.format(done + 1).as_bytes();
            write_line(
                output,
                &[b"event ".as_slice(), number, b" refused\n".as_slice()],
            );
        }
        RunStop::ReadFault => write_line(output, &[b"read fault\n".as_slice()]),
        RunStop::Memory => write_line(output, &[OUT_OF_MEMORY]),
    }
}

/// Writes a line in pieces, as far as the sink takes it.
pub(crate) fn write_line<K: Sink>(output: &mut K, pieces: &[&[u8]])
    ensures line { TookLine (K.taken output.old) (K.taken output.new) (K.faults output.old) (K.faults output.new) (flat_map (λ piece. piece.now) pieces.now) }
    ensures later { K.faults output.old ≤ K.faults output.new }
{
    let _ = write_pieces(output, pieces);
}
