// The directories above the next node of an image, and which of them it stands in.
ghost use Rattle.std.specs.Prelude.{◌≡◌, Bool, true, List, [], ◌∷◌, ◌++◌, Some, None, MatchOption};
ghost use Rattle.std.specs.Ordering.{is_lt};
ghost use Rattle.nn_base.specs.Paths.{Names, is_name, name_cmp};
ghost use Rattle.nn_tree.specs.declared.spot.Spot.{Spot};
ghost use Rattle.nn_image.specs.Assembly.{Level, waiting, placed};
ghost use Rattle.nn_message.specs.Messages.{Inode};
ghost use Rattle.nn_image.specs.Building.{IsOpen, AreOpen};

use nn_tree::Spot;
use nn_wire::varint_get;

/// A directory whose children are put into it.
#[derive(Clone, Copy)]
pub(crate) struct OpenDir<'a> {
    pub(crate) spot: Spot,
    /// How many names its path has, and how many bytes the text of the path.
    pub(crate) names: usize,
    pub(crate) text: usize,
    /// The name of the child put last, empty before the first.
    pub(crate) newest: &'a [u8],
    /// The ids of the children to come, as varints one after the other.
    pub(crate) children: &'a [u8],
}

/// Takes away the innermost directory that has a child to come, with those inside it that have none.
pub(crate) fn take_waiting<'a>(dirs: &mut Vec<OpenDir<'a>>) -> Option<OpenDir<'a>>
    ensures { (has : Spot → Bool) (place : Spot → Names) (levels : List Level) →
        AreOpen has place dirs.old.items levels →
        MatchOption result (waiting levels ≡ []) (λ dir. ((level : Level) × (outer : List Level) ×
        (waiting levels ≡ level ∷ outer) × IsOpen has place dir level × AreOpen has place dirs.new.items outer)) }
{
    while let Some(dir) = dirs.pop() {
        if !dir.children.is_empty() {
            return Some(dir);
        }
    }
    None
}

/// Whether a name comes behind another in byte order.
fn is_behind(other: &[u8], name: &[u8]) -> bool
    ensures { result ≡ is_lt (name_cmp other.now name.now) }
{
    other.cmp(name).is_lt()
}

/// The directory once it has the next child, where that has this id and its name comes behind the newest child's.
pub(crate) fn next_child<'a>(dir: &OpenDir<'a>, id: u64, name: &'a [u8]) -> Option<OpenDir<'a>>
    requires { is_name name.now ≡ true }
    ensures { (has : Spot → Bool) (place : Spot → Names) (level : Level) (outer : List Level) (inode : Inode) →
        inode.id ≡ id → inode.name ≡ name.now → IsOpen has place dir.now level →
        MatchOption result (placed (level ∷ outer) inode ≡ None) (λ next. ((after : Level) ×
        (after.path ≡ level.path) × (placed (level ∷ outer) inode ≡ Some (record { path = level.path ++ name.now ∷ []; levels = after ∷ outer })) ×
        IsOpen has place next after)) }
{
    let (child, len) = varint_get(dir.children)?;
    if child != id {
        return None;
    }
    if !is_behind(dir.newest, name) {
        return None;
    }
    Some(OpenDir {
        newest: name,
        children: &dir.children[len..],
        ..*dir
    })
}
