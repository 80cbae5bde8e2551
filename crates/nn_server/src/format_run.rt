// The command `format`: a new namespace in each directory, and then how many there are.
ghost use Rattle.std.specs.Prelude.{◌≡◌, ◌≤◌, IsTrue, IfOk};
ghost use Rattle.nn_base.specs.Words.{is_word};
ghost use Rattle.nn_server.specs.Lines.{formatted_line as line_of};
ghost use Rattle.nn_server.specs.Came.{CameTo};
ghost use Rattle.nn_server.specs.Format.{IsNewVersion, FormatRan, format_status, unformatted as end_of};

use crate::Status;
use nn_base::limits::LAYOUT;
use nn_base::{DirNo, NoMemory, Word};
use nn_host::{Failed, Host};
use nn_marks::Version;
use nn_pick::{OpenFault, Refusal};
use std::alloc::Global;

/// How a run of `format` ends.
#[derive(Clone, Copy, Debug, PartialEq, Eq)]
pub enum FormatEnd {
    /// Each directory has the new namespace, and their number was said.
    Done,
    /// This is the first that isn't NOT_FORMATTED. Nothing was changed.
    Refused(Refusal),
    /// A call on this directory failed. Those before it may be formatted.
    HostFault(DirNo),
    /// Memory ran out. Some directories may be formatted.
    Memory,
    /// The output failed. Each directory has the new namespace.
    OutFault,
}

impl FormatEnd {
    /// The status of a run of the program that ends so.
    pub fn status(self) -> Status
        ensures { result ≡ format_status self }
    {
        match self {
            FormatEnd::Done => Status::Ok,
            FormatEnd::Refused(refusal) => Status::Refused(refusal),
            FormatEnd::HostFault(i) => Status::HostFault(i),
            FormatEnd::Memory => Status::Memory,
            FormatEnd::OutFault => Status::OutFault,
        }
    }
}

/// Makes a new namespace in each directory, with this cluster's id and this number, and says how many there are.
///
/// The last line of the status is left to the caller.
pub fn format<H: Host>(alloc: Global, host: &mut H, cluster: &Word, namespace: u32) -> FormatEnd
    requires word { IsTrue (is_word cluster.now) }
    requires some { 1 ≤ namespace }
    requires fits { namespace ≤ 2147483647 }
    ensures { CameTo H.told (H.state host.old) (H.state host.new) format_status
        (λ lines trace. FormatRan H.told cluster.now namespace (H.state host.old) (H.state host.new) lines) result }
{
    let version = match new_version(alloc, cluster, namespace) {
        Ok(version) => version,
        Err(NoMemory) => return FormatEnd::Memory,
    };
    match nn_open::format(alloc, host, &version) {
        Ok(()) => match host.say(&formatted_line(host.count())) {
            Ok(()) => FormatEnd::Done,
            Err(Failed) => FormatEnd::OutFault,
        },
        Err(fault) => unformatted(fault),
    }
}

// How a run ends whose directories weren't formatted.
fn unformatted(fault: OpenFault) -> FormatEnd
    ensures { result ≡ end_of fault }
{
    match fault {
        OpenFault::Refused(refusal) => FormatEnd::Refused(refusal),
        OpenFault::Failed(i) => FormatEnd::HostFault(i),
        OpenFault::Memory => FormatEnd::Memory,
    }
}

// What VERSION says of a new namespace.
fn new_version(alloc: Global, cluster: &Word, namespace: u32) -> Result<Version, NoMemory>
    requires word { IsTrue (is_word cluster.now) }
    requires some { 1 ≤ namespace }
    requires fits { namespace ≤ 2147483647 }
    ensures { IfOk result (IsNewVersion cluster.now namespace) }
{
    let blockpool = format!(in alloc; "BP-{}", namespace)?;
    match Word::of(blockpool.as_bytes()) {
        Some(blockpool) => Ok(Version {
            namespace,
            cluster: *cluster,
            ctime: 0,
            blockpool,
            layout: LAYOUT,
        }),
        None => unreachable!(),
    }
}

// The line of so many directories, at most 8: one digit.
fn formatted_line(count: u8) -> [u8; 12]
    requires { count ≤ 8 }
    ensures { result ≡ line_of count }
{
    let mut line = *b"formatted 0\n";
    line[10] = b'0' + count;
    line
}
