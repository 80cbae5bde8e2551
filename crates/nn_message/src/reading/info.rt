// Reads the one message of NS_INFO.
ghost use Rattle.std.specs.Prelude.{◌≡◌, option_map, Some, IfSome};
ghost use Rattle.nn_message.specs.Messages.{NsInfo, IsNsInfo};
ghost use Rattle.nn_message.specs.Spelling as spelling;
ghost use Rattle.nn_message.specs.Reading as reading;
ghost use Rattle.nn_message.specs.MessageReading as messages;
ghost use Rattle.nn_message.specs.Views.{info_of};

use crate::reading::fields::{take_delimited, take_long, take_number};
use crate::view::InfoView;
use nn_base::Txid;

const LAST_NAMESPACE: u64 = 2_147_483_647;

/// The namespaceID, from 1 on and no negative int of Java's.
#[tactic(auto, unfolding(crate::specs::MessageReading::namespace_at))]
fn take_namespace(rest: &mut &[u8]) -> Option<u32>
    ensures { reading.Gives result rest.new.now (messages.namespace_at rest.old.now) }
{
    let namespace = take_number(1, rest)?;
    if namespace == 0 {
        return None;
    }
    if namespace > LAST_NAMESPACE {
        return None;
    }
    Some(namespace as u32)
}

#[tactic(auto, unfolding(crate::specs::MessageReading::ns_info_at))]
fn read_fields(message: &[u8]) -> Option<InfoView>
    ensures { option_map info_of result ≡ reading.whole messages.ns_info_at message.now }
{
    let mut rest = message;
    let namespace = take_namespace(&mut rest)?;
    let stamp = take_long(3, &mut rest)?;
    let block = take_long(5, &mut rest)?;
    let txid = take_long(6, &mut rest)?;
    if !rest.is_empty() {
        return None;
    }
    Some(InfoView {
        namespace,
        stamp,
        block,
        txid: Txid(txid),
    })
}

#[tactic(auto, unfolding(crate::specs::MessageReading::info_section_at))]
pub(super) fn read_section(section: &[u8]) -> Option<InfoView>
    ensures { option_map info_of result ≡ reading.whole messages.info_section_at section.now }
{
    let mut rest = section;
    let message = take_delimited(&mut rest)?;
    let info = read_fields(message)?;
    if !rest.is_empty() {
        return None;
    }
    Some(info)
}

/// What NS_INFO says, `NameSystemSection`, where the section is just its one message.
pub fn read_ns_info(section: &[u8]) -> Option<InfoView>
    ensures some { IfSome result (λ view. IsNsInfo (info_of view) ×
        (section.now ≡ spelling.delimited (spelling.ns_info (info_of view)))) }
    ensures again { (info : NsInfo) → IsNsInfo info →
        section.now ≡ spelling.delimited (spelling.ns_info info) →
        option_map info_of result ≡ Some info }
{
    read_section(section)
}
