//! The sequence number of one more line of an access list.
ghost use Rattle.std.specs.Prelude.{◌≡◌, ◌≤◌, false, IfSome};
ghost use Rattle.rc_config.specs.AccessList.{AreLinesInOrder, IsSequence, has_sequence, last_sequence};
ghost use Rattle.rc_gram_acl.specs.Sequence as sequence;

use rc_config::AccessList;

/// The number, where it is one from 1 to 2147483647 that no line of the list has.
fn if_free(list: &AccessList, number: u64) -> Option<u32>
    ensures value { AreLinesInOrder list.now.lines → result ≡ sequence.if_free list.now.lines number }
    ensures within { IfSome result IsSequence }
    ensures free { IfSome result (λ n. AreLinesInOrder list.now.lines → has_sequence list.now.lines n ≡ false) }
{
    if number < 1 || number > 2_147_483_647 {
        return None;
    }
    let number = number as u32;
    if list.has_line(number) {
        None
    } else {
        Some(number)
    }
}

/// The number of a line behind the last one, which has the greatest.
fn number_behind(list: &AccessList) -> u64
    ensures { result ≡ sequence.number_behind (last_sequence list.now.lines) }
{
    match list.greatest() {
        Some(last) => u64::from(last) + 10,
        None => 10,
    }
}

/// The sequence number of one more line of a list whose lines are in order: the one that is written in front of it, else
/// 10 above the greatest, and 10 in a list without lines. `None` exactly where the number would be over 2147483647 (or 0),
/// or where a line has it already.
pub(crate) fn sequence_for(list: &AccessList, written: Option<u32>) -> Option<u32>
    ensures value { AreLinesInOrder list.now.lines → result ≡ sequence.sequence_for list.now.lines written }
    ensures within { IfSome result IsSequence }
    // So the list stays lawful with a lawful line of this number.
    ensures free { IfSome result (λ n. AreLinesInOrder list.now.lines → has_sequence list.now.lines n ≡ false) }
{
    match written {
        Some(number) => if_free(list, u64::from(number)),
        None => if_free(list, number_behind(list)),
    }
}
