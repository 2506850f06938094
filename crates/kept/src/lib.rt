// What is left of a decimal's integral digits and groups where its precision is not kept.
#![tactic(auto)]

ghost use Rattle.std.specs.Prelude.{◌≡◌, ◌+◌, ◌≤◌, get_or};
ghost use Rattle.groups.specs.Numbers.{tab, leading_in};
ghost use Rattle.kept.specs.Kept.{kept_parts};

use groups::Parts;

// How many of the first n groups are 0, up to the first that is not. There are nine, so it is at most nine for any n.
fn leading(groups: &[u32; 9], n: usize) -> usize
    ensures { (result ≡ leading_in n groups.now) × ((result ≤ n) × (result ≤ 9)) }
{
    groups.iter().take(n).take_while(|g| **g == 0).count()
}

// The groups without the first z. They are taken one by one: a copy of a length that the compiler does not know is a call of memcpy, and the archive for C may
// need no function from outside.
fn shifted(groups: &[u32; 9], z: usize) -> [u32; 9]
    requires { z ≤ 9 }
    ensures { result ≡ tab 9 (λ k. get_or groups.now (k + z) 0) }
{
    let mut out = [0; 9];
    for k in 0..9 {
        out[k] = groups.get(k + z).copied().unwrap_or(0);
    }
    out
}

// The parts without the leading integral groups that are 0, and their digits. Mostly there is none.
pub fn without_leading(parts: Parts) -> Parts
    ensures { result ≡ kept_parts parts }
{
    let n = parts.intg.div_ceil(9);
    let z = leading(&parts.groups, n);
    if z == 0 {
        return parts;
    }
    Parts {
        intg: 9 * (n - z),
        groups: shifted(&parts.groups, z),
        ..parts
    }
}
