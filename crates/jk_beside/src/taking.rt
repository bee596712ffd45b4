//! What is taken out of a file.

ghost use Rattle.std.specs.Prelude.{◌≡◌, ◌≤◌, length, option_map, IfOk, IfErr};
ghost use Rattle.jk_math.specs.Answer.{AnswersExactly};
ghost use Rattle.jk_beside.specs.Taking.{profile_told, profile_at, of_uuid, held_by, HasItem, HasNoItem, IsItemOf, IsNotTaken};

use jk_extras::{ToldColour, Wanted, XML, extras_at, find};
use jk_math::Fault;

/// What may be taken out of a file.
#[derive(Clone, Copy, Debug, PartialEq, Eq)]
pub enum Item {
    /// XML.
    Xml,
    /// What stands under a UUID.
    Uuid([u8; 16]),
}

/// The bytes of a profile that a file tells.
fn profile_told(file: &[u8], colour: ToldColour) -> Result<Option<&[u8]>, Fault>
    ensures { AnswersExactly (λ o. option_map (λ b. b.now) o) result (profile_told file.now colour) }
{
    match colour {
        ToldColour::Nothing | ToldColour::Enumerated(_) => Ok(None),
        ToldColour::Profile(start, end) => {
            if end < start || file.len() < end {
                return Err(Fault::BadBox);
            }
            Ok(Some(&file[start..end]))
        }
    }
}

/// The profile of a file, if its first colour specification that counts is one. The faults are
/// those of `extras_at`.
#[tactic(auto, unfolding(crate::specs::Taking::profile_at))]
pub fn profile_in(file: &[u8]) -> Result<Option<&[u8]>, Fault>
    ensures exact { AnswersExactly (λ o. option_map (λ b. b.now) o) result (profile_at file.now) }
{
    let told = extras_at(file)?;
    profile_told(file, told.colour)
}

/// What a box under a UUID has of an item.
fn of_uuid(item: Item, contents: &[u8]) -> Option<&[u8]>
    requires { 16 ≤ length contents.now }
    ensures { option_map (λ b. b.now) result ≡ of_uuid item contents.now }
{
    match item {
        Item::Xml => None,
        Item::Uuid(id) => {
            let (own, rest) = contents.split_at(16);
            if own == id.as_slice() {
                Some(rest)
            } else {
                None
            }
        }
    }
}

/// What a box has of an item.
#[tactic(auto, unfolding(crate::specs::Taking::held_by))]
fn held_by(item: Item, kind: u32, contents: &[u8]) -> Result<Option<&[u8]>, Fault>
    ensures { AnswersExactly (λ o. option_map (λ b. b.now) o) result (held_by item kind contents.now) }
{
    if kind == XML {
        return match item {
            Item::Xml => Ok(Some(contents)),
            Item::Uuid(_) => Ok(None),
        };
    }
    if contents.len() < 16 {
        return Err(Fault::BadBox);
    }
    Ok(of_uuid(item, contents))
}

/// The first box of XML or under a UUID, from a place on, that holds an item.
fn item_from(item: Item, file: &[u8], from: usize) -> Result<Option<&[u8]>, Fault>
    ensures ok { IfOk result (λ o. HasItem item file.now from (option_map (λ b. b.now) o)) }
    ensures err { IfErr result (λ e. HasNoItem item file.now from e) }
{
    let mut at = from;
    while at < file.len() {
        let found = match find(file, at, Wanted::Others)? {
            Some(found) => found,
            None => return Ok(None),
        };
        let contents = found.head.contents(&file[found.at..]);
        let held = held_by(item, found.head.kind, contents)?;
        if held.is_some() {
            return Ok(held);
        }
        at = found.at + found.head.size;
    }
    Ok(None)
}

/// What the first box of XML of a file holds, or the first under a UUID behind the UUID, if there is
/// one. The faults are those of `extras_at`, and then of `other_after` up to that box.
pub fn item_in(item: Item, file: &[u8]) -> Result<Option<&[u8]>, Fault>
    ensures ok { IfOk result (λ o. IsItemOf item file.now (option_map (λ b. b.now) o)) }
    ensures err { IfErr result (λ e. IsNotTaken item file.now e) }
{
    let told = extras_at(file)?;
    item_from(item, file, told.others)
}
