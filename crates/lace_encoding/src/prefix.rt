// The prefix lq--, stored first.
ghost use Rattle.std.specs.Prelude.{◌≡◌, ◌++◌, ◌≤◌, length, drop};
ghost use Rattle.lace_format.specs.Prefix.{prefix};

use lace_format::PREFIX;

// Stores the prefix.
pub(crate) fn put_prefix(label: &mut [u8])
    requires { 4 ≤ length label.old }
    ensures { label.new ≡ prefix ++ drop 4 label.old }
{
    label[..4].copy_from_slice(&PREFIX);
}
