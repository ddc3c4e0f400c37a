//! What the header Authorization claims, and whose path a request goes to.

ghost use Rattle.std.specs.Prelude.{◌≡◌, ◌≢◌, ◌++◌, List, ℕ, MatchOption, Some, None, bytes_eq, codes};
ghost use Rattle.tab_auth.specs.Checks.{claim_of, names_account, ends_segment};

/// ACCOUNT and SIGNATURE of a header `SharedKeyLite ACCOUNT:SIGNATURE`.
pub(crate) fn read_claim(authorization: &str) -> Option<(&str, &str)>
    ensures { MatchOption result (claim_of authorization.now ≡ None)
        (λ claim. claim_of authorization.now ≡ Some (record { account = claim.0.now; signature = claim.1.now })) }
{
    authorization
        .strip_prefix("SharedKeyLite ")?
        .split_once(':')
}

/// Whether a path begins with `/` and the account, which ends there or before `/`.
#[tactic(auto, using(crate::proofs::Fronts::named, crate::proofs::Fronts::unnamed))]
pub(crate) fn names_account(account: &str, path: &str) -> bool
    ensures { result ≡ names_account account.now path.now }
{
    match after_account(account.as_bytes(), path.as_bytes()) {
        Some(rest) => ends_segment(rest),
        None => false,
    }
}

/// What follows `/` and the account in a path.
fn after_account<'a>(account: &[u8], path: &'a [u8]) -> Option<&'a [u8]>
    ensures { MatchOption result ((rest : List ℕ) → path.now ≢ codes "/" ++ account.now ++ rest)
        (λ rest. path.now ≡ codes "/" ++ account.now ++ rest.now) }
{
    path.strip_prefix(b"/")?.strip_prefix(account)
}

/// Whether a path's segment ends where this follows.
fn ends_segment(rest: &[u8]) -> bool
    ensures { result ≡ ends_segment rest.now }
{
    matches!(rest, [] | [b'/', ..])
}

/// Whether two texts are the same. It looks at each byte, wherever the first difference lies, so that the time it
/// takes does not tell how much of a claimed signature is right.
pub(crate) fn is_same(claimed: &[u8], signature: &[u8]) -> bool
    ensures { result ≡ bytes_eq claimed.now signature.now }
{
    if claimed.len() != signature.len() {
        return false;
    }
    let mut difference = 0;
    for (left, right) in claimed.iter().zip(signature) {
        difference |= *left ^ *right;
    }
    difference == 0
}
