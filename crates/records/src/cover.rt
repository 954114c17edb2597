// What one relation line covers: its channels, its receivers, and how one leads to the other. Each promise is of every reach of the
// paper that the values code.
ghost use Rattle.std.specs.Prelude.{◌≡◌, ℕ, ◌-◌, ◌≤◌, ◌<◌, min, max, leb, ◌&&◌};
ghost use Rattle.rules.specs.Relations.{Reach as PaperReach};
ghost use Rattle.rules.specs.Cover.{traces as traces_of, carries as carries_of, receivers as receivers_of, covers as covers_of};
ghost use Rattle.rules.specs.Cover.{lowest as lowest_of, highest as highest_of, receiver_on, on_to};
ghost use Rattle.rules.specs.Cover.{leads as leads_of, component as component_of, channel_of, meet};
ghost use Rattle.fields.specs.Texts.{Wide};
ghost use Rattle.records.specs.Coded.{coded_reach};

use crate::relation::Reach;
use fields::names;

// How many channels: T - F + 1.
#[tactic(auto, unfolding(rules::specs::Cover::traces))]
pub fn traces(q: Reach) -> u64
    ensures value { (p : PaperReach) → q ≡ coded_reach p → result ≡ traces_of p }
{
    (u64::from(q.upto) + 1).saturating_sub(u64::from(q.from))
}

// Channel c is one of them.
#[tactic(auto, unfolding(rules::specs::Cover::carries))]
pub fn carries(q: Reach, c: u64) -> bool
    ensures value { (p : PaperReach) → q ≡ coded_reach p → result ≡ carries_of p c }
{
    u64::from(q.from) <= c && c <= u64::from(q.upto)
}

// The lowest receiver number.
pub fn lowest(q: Reach) -> u64
    ensures value { (p : PaperReach) → q ≡ coded_reach p → result ≡ lowest_of p }
    ensures small { result < 4294967296 }
{
    u64::from(q.from_receiver.min(q.to_receiver))
}

// The highest receiver number.
pub fn highest(q: Reach) -> u64
    ensures value { (p : PaperReach) → q ≡ coded_reach p → result ≡ highest_of p }
    ensures small { result < 4294967296 }
{
    u64::from(q.from_receiver.max(q.to_receiver))
}

// How many receivers.
#[tactic(auto, unfolding(rules::specs::Cover::receivers))]
pub fn receivers(q: Reach) -> u64
    ensures value { (p : PaperReach) → q ≡ coded_reach p → result ≡ receivers_of p }
{
    highest(q).saturating_sub(lowest(q)) + 1
}

// The number of the receiver that is d on from the first.
#[tactic(auto, unfolding(rules::specs::Cover::receiver_on, rules::specs::Places::pick))]
pub fn receiver_on(q: Reach, d: u64) -> u64
    requires { d < 4294967296 }
    ensures value { (p : PaperReach) → q ≡ coded_reach p → result ≡ receiver_on p d }
{
    if q.from_receiver <= q.to_receiver {
        u64::from(q.from_receiver) + d
    } else {
        u64::from(q.from_receiver).saturating_sub(d)
    }
}

// How far on from the first receiver number n is.
#[tactic(auto, unfolding(rules::specs::Cover::on_to, rules::specs::Places::pick))]
fn on_to(q: Reach, n: u64) -> u64
    requires { n < 4294967296 }
    ensures value { (p : PaperReach) → q ≡ coded_reach p → result ≡ on_to p n }
    ensures small { result < 4294967296 }
{
    if q.from_receiver <= q.to_receiver {
        n.saturating_sub(u64::from(q.from_receiver))
    } else {
        u64::from(q.from_receiver).saturating_sub(n)
    }
}

// Receiver number n is one of them.
#[tactic(auto, unfolding(rules::specs::Cover::covers))]
pub fn covers(q: Reach, n: u64) -> bool
    ensures value { (p : PaperReach) → q ≡ coded_reach p → result ≡ covers_of p n }
{
    lowest(q) <= n && n <= highest(q)
}

// The receiver number that channel c leads to.
#[tactic(auto, unfolding(rules::specs::Cover::leads))]
pub fn leads(q: Reach, c: u64) -> u64
    requires { (q.from ≤ c) × ((c < 4294967296) × (1 ≤ q.step)) }
    ensures value { (p : PaperReach) → q ≡ coded_reach p → result ≡ leads_of p c }
{
    receiver_on(q, (c - u64::from(q.from)) / u64::from(q.step))
}

// The component that it leads to.
#[tactic(auto, unfolding(rules::specs::Cover::component))]
pub fn component(q: Reach, c: u64) -> u64
    requires { (q.from ≤ c) × ((c < 4294967296) × (1 ≤ q.step)) }
    ensures value { (p : PaperReach) → q ≡ coded_reach p → result ≡ component_of p c }
{
    (c - u64::from(q.from)) % u64::from(q.step) + 1
}

// The channel of receiver number n and component m.
#[tactic(auto, unfolding(rules::specs::Cover::channel_of))]
pub fn channel_of(q: Reach, n: u64, m: u64) -> u64
    requires { (n < 4294967296) × ((q.step < 256) × ((1 ≤ m) × (m < 4294967296))) }
    ensures value { (p : PaperReach) → q ≡ coded_reach p → result ≡ channel_of p n m }
{
    u64::from(q.from) + on_to(q, n) * u64::from(q.step) + (m - 1)
}

// Each begins before the other ends.
fn overlap(a: Reach, b: Reach) -> bool
    ensures value { (p q : PaperReach) → a ≡ coded_reach p → b ≡ coded_reach q
        → result ≡ (leb (lowest_of p) (highest_of q) && leb (lowest_of q) (highest_of p)) }
{
    lowest(a) <= highest(b) && lowest(b) <= highest(a)
}

// Both cover one receiver: of one name and index, and each begins before the other ends.
pub fn meets(a: Reach, b: Reach) -> bool
    ensures value { (p q : PaperReach) → a ≡ coded_reach p → b ≡ coded_reach q → Wide p.receiver → Wide q.receiver → result ≡ meet p q }
{
    names::same_name(a.receiver, b.receiver)
        && a.receiver_index == b.receiver_index
        && overlap(a, b)
}
