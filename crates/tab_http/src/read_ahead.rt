//! Reading ahead until a head may have ended, in pieces, so that little comes behind it.
ghost use Rattle.std.specs.Prelude.{◌≡◌, ◌+◌, ◌<◌, ◌≤◌, ◌⊎◌, length, vec_len, MatchBool, IfOk, IfErr, OnOk, OnErr, IsErrOf};
ghost use Rattle.std.specs.Io.KnownBytes.{IsAtEnd};
ghost use Rattle.tab_http.specs.HeadStates.{state_after};
ghost use Rattle.tab_http.specs.Reading.{Gathered, NeverHasHead, ReadRefused, IsReadRefusal};
ghost use Rattle.tab_http.specs.declared.head_states.HeadState.TheVariants.{Ended};
ghost use Rattle.tab_outside.specs.Faults.{Rose};
ghost use Rattle.tab_outside.specs.Transfers.{Moved};
ghost use Rattle.tab_http.specs.declared.TheConstants.{LONGEST_HEAD};

use crate::head_states::HeadState;
use crate::{HttpRefused, LONGEST_HEAD, LONGEST_READ};
use tab_outside::Source;

/// Reads until a head may have ended, or as many bytes have come as it may have, or the input ends. Answers whether
/// it has ended.
pub fn read_to_head_end<S: Source>(source: &mut S, carry: &mut Vec<u8>) -> Result<bool, HttpRefused>
    ensures gathered { Gathered (S.left source.old) (S.left source.new) carry.old.items carry.new.items }
    ensures reached { IfOk result (λ ended. MatchBool ended (IsAtEnd (S.left source.new)) ((state_after carry.new.items ≡ Ended) ⊎ (LONGEST_HEAD ≤ length carry.new.items))) }
    ensures refused { IfErr result (ReadRefused carry.new.items) }
    ensures fault { IsErrOf result HttpRefused.ReadFault → Rose (S.faults source.old) (S.faults source.new) }
    ensures later { S.faults source.old ≤ S.faults source.new }
    ensures beside { S.beside source.new ≡ S.beside source.old }
{
    let mut piece = [0; LONGEST_READ];
    let mut state = HeadState::Blank;
    let mut seen = 0;
    loop {
        state = state.after(&carry[seen..]);
        seen = carry.len();
        if state.is_ended() || seen >= LONGEST_HEAD {
            return Ok(false);
        }
        if !read_more(source, &mut piece, carry)? {
            return Ok(true);
        }
    }
}

/// Reads until as many bytes have come as a head may have, or the input ends.
pub fn read_to_limit<S: Source>(source: &mut S, carry: &mut Vec<u8>) -> Result<(), HttpRefused>
    requires { NeverHasHead carry.old.items }
    ensures gathered { Gathered (S.left source.old) (S.left source.new) carry.old.items carry.new.items }
    ensures reached { OnOk result ((LONGEST_HEAD ≤ length carry.new.items) ⊎ IsAtEnd (S.left source.new)) }
    ensures refused { IfErr result (ReadRefused carry.new.items) }
    ensures fault { IsErrOf result HttpRefused.ReadFault → Rose (S.faults source.old) (S.faults source.new) }
    ensures later { S.faults source.old ≤ S.faults source.new }
    ensures beside { S.beside source.new ≡ S.beside source.old }
{
    let mut piece = [0; LONGEST_READ];
    while carry.len() < LONGEST_HEAD {
        if !read_more(source, &mut piece, carry)? {
            return Ok(());
        }
    }
    Ok(())
}

/// Reads once, by way of a buffer, behind what `carry` has. Answers whether any byte came; if none did, the input has
/// ended.
fn read_more<S: Source>(
    source: &mut S,
    piece: &mut [u8],
    carry: &mut Vec<u8>,
) -> Result<bool, HttpRefused>
    requires { 0 < length piece.old }
    ensures little { length carry.new.items ≤ length carry.old.items + length piece.old }
    ensures moved { Moved (S.left source.old) (S.left source.new) carry.old.items carry.new.items }
    ensures came { IfOk result (λ some. MatchBool some (vec_len carry.old < vec_len carry.new) (IsAtEnd (S.left source.new))) }
    ensures kept { OnErr result (carry.new.items ≡ carry.old.items) }
    ensures refused { IfErr result IsReadRefusal }
    ensures fault { IsErrOf result HttpRefused.ReadFault → Rose (S.faults source.old) (S.faults source.new) }
    ensures later { S.faults source.old ≤ S.faults source.new }
    ensures beside { S.beside source.new ≡ S.beside source.old }
{
    let Ok(()) = carry.reserve(piece.len()) else {
        return Err(HttpRefused::Memory);
    };
    let Ok(count) = source.read(piece) else {
        return Err(HttpRefused::ReadFault);
    };
    carry.extend_from_slice(&piece[..count]).unwrap();
    Ok(count > 0)
}
