// Writing a small file.
ghost use Rattle.std.specs.Prelude.{◌≡◌, ◌≢◌, ◌+◌, ◌<◌, ◌≤◌, true, OnOk};
ghost use Rattle.nn_host.specs.Moments.{disk_at, moment};
ghost use Rattle.nn_host.specs.Calls.{IsCounted};
ghost use Rattle.nn_host.specs.Runs.{OnlyAt};
ghost use Rattle.nn_small.specs.Small.{OldOrNew, Written};
ghost use Rattle.nn_small.specs.Failure.{EndsByFailure};

use nn_base::{DirNo, FileName, Sub};
use nn_host::{Failed, Host};

/// Writes a file of these bytes in the subfolder, in place of the one of that name, if there is one. On the way it is
/// called `tmp`, and a file of that name is lost.
///
/// Where the subfolder isn't there, `Ok` means nothing. After `Failed` the file is the old one or the new one, and a `tmp`
/// may be left. The order is that of Hadoop's `AtomicFileOutputStream`.
pub fn write_small<H: Host>(
    host: &mut H,
    i: DirNo,
    sub: Sub,
    tmp: FileName,
    name: FileName,
    bytes: &[u8],
) -> Result<(), Failed>
    requires below { i.0 < (H.state host.old).count }
    requires apart { tmp ≢ name }
    ensures ok { H.told → (disk_at (H.state host.old) i.0).has sub ≡ true → OnOk result (Written i.0 sub tmp name bytes.now (H.state host.old) (H.state host.new)) }
    ensures any_moment { OnlyAt H.told i.0 (H.state host.old) (H.state host.new) (OldOrNew sub tmp name bytes.now (disk_at (H.state host.old) i.0)) }
    ensures still { EndsByFailure H.told i.0 (H.state host.old) (H.state host.new) }
    ensures calls { H.told → moment (H.state host.new) ≤ moment (H.state host.old) + 4 }
    ensures cause { IsCounted i.0 (H.state host.old) (H.state host.new) result }
{
    // Lent, since each is passed more than once.
    let (from, to) = (&tmp, &name);
    host.make_file(i, sub, *from)?;
    host.append(i, sub, *from, bytes)?;
    // The file gets its name only once its bytes last: the name stands for whole contents.
    host.sync(i, sub, *from)?;
    host.rename_file(i, sub, *from, *to)
}
