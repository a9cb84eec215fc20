ghost use Rattle.std.specs.Prelude.{◌≡◌, ◌≤◌};
ghost use Rattle.sharing.specs.Masks.{member, is_within, is_group_of};
ghost use Rattle.sharing.specs.Split.{first_common};

// Groups are bytes here, masks as the public calls take them: a type of their own would be wrapped at each of these calls.

// Whether `place` is in the group.
#[tactic(auto, using(crate::proofs::Members::past_byte))]
pub(crate) fn is_member(place: u8, group: u8) -> bool
    ensures { result ≡ member place group }
{
    (1..=8).contains(&place) && group & (1 << (place - 1)) != 0
}

// Whether the group has no place above `n`.
pub(crate) fn is_within(group: u8, n: u8) -> bool
    requires { n ≤ 8 }
    ensures { result ≡ is_within n group }
{
    u16::from(group) < 1 << n
}

// Whether the group has exactly `size` places, all of them within `n`.
pub(crate) fn is_group_of(group: u8, n: u8, size: u8) -> bool
    requires { n ≤ 8 }
    ensures { result ≡ is_group_of size n group }
{
    is_within(group, n) && group.count_ones() == u32::from(size)
}

// The smallest place of 1 to `n` that is in both groups.
pub(crate) fn first_common(n: u8, a: u8, b: u8) -> Option<u8>
    ensures { result ≡ first_common n a b }
{
    (1..=n).find(|place| is_member(*place, a) && is_member(*place, b))
}
