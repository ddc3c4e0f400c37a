//! What the program is called with.
ghost use Rattle.std.specs.Prelude.{◌≡◌, ◌≢◌, ℕ, ◌≤◌, List, IfSome, IsNone, String as TheString};
ghost use Rattle.std.specs.declared.alloc.Global.{Global as TheGlobal};
ghost use Rattle.tab_cli.specs.Invocations.{digit, IsInvocation};

/// What the program is called with.
#[derive(Clone, Copy)]
pub struct Invocation<'a> {
    /// The folder of the disks, or the word that asks for disks in memory.
    pub folder: &'a str,
    /// How many servers the store has, from 1 to 8.
    pub servers: usize,
    /// The words of the command.
    pub command: &'a [String],
}

/// Reads the arguments, of which the first is the program's name.
pub fn read_invocation(arguments: &[String]) -> Option<Invocation<'_>>
    ensures some { IfSome result (λ invocation. IsInvocation arguments.now invocation.folder.now invocation.servers invocation.command.now) }
    ensures none { IsNone result → (folder : List ℕ) (servers : ℕ) (command : List (TheString TheGlobal)) → IsInvocation arguments.now folder servers command → ⊥ }
{
    let [_, folder, servers, command @ ..] = arguments else {
        return None;
    };
    let servers = read_servers(servers.as_bytes())?;
    Some(Invocation {
        folder: folder.as_str(),
        servers,
        command,
    })
}

/// The number of servers that a word spells, from 1 to 8.
fn read_servers(word: &[u8]) -> Option<usize>
    ensures some { IfSome result (λ servers. (word.now ≡ digit servers) × (1 ≤ servers) × (servers ≤ 8)) }
    ensures none { IsNone result → (servers : ℕ) → 1 ≤ servers → servers ≤ 8 → word.now ≢ digit servers }
{
    match word {
        [digit @ b'1'..=b'8'] => Some(usize::from(*digit - b'0')),
        _ => None,
    }
}
