// The owner and the group of a node of an image, by their numbers.
ghost use Rattle.std.specs.Prelude.{◌≡◌, Some, None, All, MatchOption};
ghost use Rattle.nn_base.specs.Labels.{IsLabel};
ghost use Rattle.nn_image.specs.Assembly.{use_name, use_names};

use nn_base::Label;
use nn_message::Attributes;
use nn_strtab::Names;

/// Who a node belongs to, and how many names of the string table are used with these two.
#[derive(Clone, Copy)]
pub(crate) struct Owners {
    pub(crate) owner: Label,
    pub(crate) group: Label,
    pub(crate) used: u32,
}

/// The name of a number, which is that of a used name or the next one, and how many are used with it.
#[tactic(auto, unfolding(crate::specs::Assembly::use_name))]
fn owner_of(names: &Names, used: u32, number: u64) -> Option<(Label, u32)>
    requires { All IsLabel names.now }
    ensures { result ≡ use_name names.now used number }
{
    if number > u64::from(used) + 1 {
        return None;
    }
    if number > u64::from(names.len()) {
        return None;
    }
    let number = number as u32;
    let name = names.name_of(number)?;
    let label = Label::of(name)?;
    Some((label, used.max(number)))
}

/// The owner of a node, and then its group.
#[tactic(auto, unfolding(crate::specs::Assembly::use_names, crate::specs::Assembly::use_group))]
pub(crate) fn owners_of(names: &Names, used: u32, attributes: &Attributes) -> Option<Owners>
    requires { All IsLabel names.now }
    ensures { MatchOption result (use_names names.now used attributes.now ≡ None)
        (λ o. use_names names.now used attributes.now ≡ Some (record { owner = o.owner; group = o.group; used = o.used })) }
{
    let (owner, used) = owner_of(names, used, attributes.owner)?;
    let (group, used) = owner_of(names, used, attributes.group)?;
    Some(Owners { owner, group, used })
}
