//! Which prefixes a prefix list permits.
ghost use Rattle.std.specs.Prelude.{◌≡◌, ◌≤◌};
ghost use Rattle.rc_policy.specs.Policy.{has_length, matches_prefix, prefix_list_permits};

use rc_base::Prefix;
use rc_config::{Action, PrefixLine, PrefixList};

/// Whether a line takes prefixes of this length.
fn has_length(line: &PrefixLine, len: u8) -> bool
    requires { len ≤ 32 }
    ensures { result ≡ has_length line.now.ge line.now.le line.now.prefix.len len }
{
    let own = line.prefix.len();
    let longest = match line.le {
        Some(longest) => longest,
        None if line.ge.is_some() => 32,
        None => own,
    };
    line.ge.unwrap_or(own) <= len && len <= longest
}

/// Whether a line matches a prefix.
fn matches_prefix(line: &PrefixLine, prefix: &Prefix) -> bool
    ensures { result ≡ matches_prefix line.now prefix.now }
{
    line.prefix.contains(prefix.network()) && has_length(line, prefix.len())
}

/// Whether a prefix list permits a prefix: the action of the first line that matches decides, and the end denies.
pub fn permits(list: &PrefixList, prefix: Prefix) -> bool
    ensures { result ≡ prefix_list_permits list.now prefix }
{
    for line in list.lines.iter() {
        if matches_prefix(line, &prefix) {
            return matches!(line.action, Action::Permit);
        }
    }
    false
}
