ghost use Rattle.std.specs.Prelude.{◌≡◌, ℕ, true, ◌&&◌, nat_lt, slice_index};
ghost use Rattle.std.specs.Bool.{then_some};
ghost use Rattle.std.specs.Result.{result_map_both};
ghost use Rattle.sharing.specs.Masks.{lawful, is_within, is_share_mask, shares, mask_of, rank_of};
ghost use Rattle.sharing.specs.Groups.{unit_has, equal_shares};
ghost use Rattle.sharing.specs.Split.{is_quorum, falls_to};
ghost use Rattle.sharing.specs.Answers.{scheme_answer, mask_answer, rank_answer, share_at, falls_answer, equal_answer};
ghost use Rattle.sharing.specs.Laws.{GroupOfMembers, SharesCounted, RanksAndMasks, RankIsSum, FallsToOne, EnoughHaveAll, FewLackOne, EqualShares};

use crate::group::{first_common, is_group_of, is_member, is_within};
use crate::pascal::choose_of;
use crate::refusal::Refusal;

/// How a key is shared among `n` units so that any `t` of them have all of it.
#[derive(Clone, Copy, Debug, PartialEq, Eq)]
pub struct Scheme {
    n: u8,
    t: u8,
    // the share masks by rank, and zeros after them: an array, since a scheme is Copy, which an ArrayVec is not, and nothing
    // here allocates
    masks: [u8; 70],
    ghost allowed: { lawful n t ≡ true },
    ghost ordered: { (rank : ℕ) → slice_index masks rank ≡ mask_of n t rank },
}

impl Scheme {
    /// A scheme for `n` units with threshold `t`.
    pub fn new(n: u8, t: u8) -> Result<Scheme, Refusal>
        ensures { result_map_both (λ s. (s.n, s.t)) (λ e. e) result ≡ scheme_answer n t }
    {
        if t < 2 || t > n || n > 8 {
            return Err(Refusal::Parameters);
        }
        Ok(Scheme {
            n,
            t,
            masks: share_masks(n, t),
        })
    }

    /// The number of shares of a dealing.
    pub fn shares(&self) -> u8
        ensures { result ≡ shares self.now.n self.now.t }
    {
        choose_of(self.n, self.t - 1)
    }

    /// The mask of the places that have the share of `rank`.
    #[tactic(auto, using(crate::proofs::Order::shares_counted, crate::proofs::Ranks::ranks_and_masks))]
    pub fn mask_of(&self, rank: u8) -> Result<u8, Refusal>
        ensures value { result ≡ mask_answer self.now.n self.now.t rank }
        ensures counted { SharesCounted }
        ensures inverse { RanksAndMasks }
    {
        self.mask(rank).ok_or(Refusal::Rank)
    }

    /// The rank of a share mask.
    #[tactic(auto, using(crate::proofs::Ranks::rank_is_sum))]
    pub fn rank_of(&self, mask: u8) -> Result<u8, Refusal>
        ensures value { result ≡ rank_answer self.now.n self.now.t mask }
        ensures sum { RankIsSum }
    {
        if !self.is_share_mask(mask) {
            return Err(Refusal::Mask);
        }
        Ok(self.binomial_sum(mask))
    }

    /// Whether the unit at `place` has the share of `rank`.
    #[tactic(auto, using(crate::proofs::Order::unit_past))]
    pub fn has_rank(&self, place: u8, rank: u8) -> bool
        ensures { result ≡ unit_has self.now.n self.now.t place rank }
    {
        self.mask(rank).is_some_and(|mask| is_member(place, mask))
    }

    /// Where the 16 bytes of the unit's share of `rank` begin in a dealing, which has the shares by rising rank.
    pub fn share_at(&self, place: u8, rank: u8) -> Option<usize>
        ensures { result ≡ share_at self.now.n self.now.t place rank }
    {
        self.has_rank(place, rank).then_some(16 * usize::from(rank))
    }

    /// The member of a quorum that `rank` falls to.
    #[tactic(auto, using(crate::proofs::Split::common_found, crate::proofs::Split::falls_to_one, crate::proofs::Groups::enough_have_all, crate::proofs::Groups::few_lack_one))]
    pub fn falls_to(&self, quorum: u8, rank: u8) -> Result<u8, Refusal>
        ensures value { result ≡ falls_answer self.now.n self.now.t quorum rank }
        ensures once { FallsToOne }
        ensures enough { EnoughHaveAll }
        ensures few { FewLackOne }
    {
        if !is_group_of(quorum, self.n, self.t) {
            return Err(Refusal::Quorum);
        }
        let mask = self.mask_of(rank)?;
        // A quorum has a place of every share mask.
        Ok(first_common(self.n, quorum, mask).unwrap())
    }

    /// Whether the units of two groups have the same shares between them.
    #[tactic(auto, using(crate::proofs::Groups::equal_shares_lem, crate::proofs::Groups::group_of_members))]
    pub fn hold_equal_shares(&self, a: u8, b: u8) -> Result<bool, Refusal>
        ensures value { result ≡ equal_answer self.now.n self.now.t a b }
        ensures law { EqualShares }
        ensures groups { GroupOfMembers }
    {
        if !is_within(a, self.n) || !is_within(b, self.n) {
            return Err(Refusal::Group);
        }
        Ok(self.same_shares(a, b))
    }

    // The mask that has a rank, if there is such a rank.
    #[tactic(auto, using(crate::proofs::Order::shares_few))]
    fn mask(&self, rank: u8) -> Option<u8>
        ensures { result ≡ then_some (nat_lt rank (shares self.now.n self.now.t)) (mask_of self.now.n self.now.t rank) }
    {
        (rank < self.shares()).then(|| self.masks[usize::from(rank)])
    }

    // Whether the mask is a share mask, which has a rank.
    fn is_share_mask(&self, mask: u8) -> bool
        ensures { result ≡ is_share_mask self.now.n self.now.t mask }
    {
        is_group_of(mask, self.n, self.n - self.t + 1)
    }

    // The rank: C(p1, 1) + C(p2, 2) + .. over the mask's ones, at the bits p1 < p2 < .. (By 1..=8 it took two thirds longer.)
    fn binomial_sum(&self, mask: u8) -> u8
        requires { is_share_mask self.now.n self.now.t mask ≡ true }
        ensures { result ≡ rank_of self.now.n self.now.t mask }
    {
        (0..8)
            .filter(|bit| is_member(*bit + 1, mask))
            .zip(1..9)
            .map(|(bit, ones)| choose_of(bit, ones))
            .sum()
    }

    // By the law of equal shares no rank has to be looked at.
    #[tactic(auto, using(crate::proofs::Groups::equal_if, crate::proofs::Groups::equal_unless))]
    fn same_shares(&self, a: u8, b: u8) -> bool
        requires { (is_within self.now.n a && is_within self.now.n b) ≡ true }
        ensures { result ≡ equal_shares self.now.n self.now.t a b }
    {
        let t = u32::from(self.t);
        a == b || (a.count_ones() >= t && b.count_ones() >= t)
    }
}

// The share masks in increasing order, and zeros after them. Only masks within n are looked at, as u16, since 2^8 is past a
// byte; those that are kept are cast back, for which there is no From. There is no scheme yet, so n and t come by themselves.
fn share_masks(n: u8, t: u8) -> [u8; 70]
    requires { lawful n t ≡ true }
    ensures { (rank : ℕ) → slice_index result rank ≡ mask_of n t rank }
{
    let size = u32::from(n - t + 1);
    let mut masks = [0; 70];
    for (rank, mask) in (0..1u16 << n)
        .filter(|mask| mask.count_ones() == size)
        .enumerate()
    {
        masks[rank] = mask as u8;
    }
    masks
}
