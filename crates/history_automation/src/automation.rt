//! What the firings of automation hold back at a moment.
ghost use Rattle.std.specs.Prelude.{◌≡◌, ◌&&◌, ◌||◌, filter};
ghost use Rattle.std.specs.List.{list_any};
ghost use Rattle.policy_core.specs.Automation.{is_same_component, covers, is_suspend};
ghost use Rattle.policy_core.specs.Site.{site_of, is_same_site};
ghost use Rattle.history_core.specs.History.{text_of, is_same_path};
ghost use Rattle.history_core.specs.LiveOrders.{is_suspended};
ghost use Rattle.history_core.specs.Firing.{is_in_force};

use history_core::{Entry, Path, RuleMatch};
use history_views::orders::{is_during, is_suspended};
use kumo_base::Text;
use policy_core::{Action, Policy};
use queue_name::{Message, QueueName};
use shaping_merge::is_at_site;

/// Whether a firing is in force at a moment.
pub fn is_in_force(firing: &RuleMatch, t: u64) -> bool
    ensures { result ≡ is_in_force t firing.now }
{
    is_during(firing.at, firing.rule.duration, t)
}

/// Whether components are equal, or both not there.
fn is_same_component(component: &Option<Text>, other: &Option<Text>) -> bool
    ensures { result ≡ is_same_component component.now other.now }
{
    match (component, other) {
        (None, None) => true,
        (Some(component), Some(other)) => component.is_same(other.as_str()),
        _ => false,
    }
}

/// Whether an action that the reply to a message of one queue brought about holds back those of another at the same site.
fn covers(action: &Action, fired: &QueueName, name: &QueueName) -> bool
    ensures { result ≡ covers action.now fired.now name.now }
{
    match action {
        Action::SuspendTenant => {
            fired.tenant.is_some() && is_same_component(&fired.tenant, &name.tenant)
        }
        Action::SuspendCampaign => {
            fired.campaign.is_some()
                && is_same_component(&fired.campaign, &name.campaign)
                && is_same_component(&fired.tenant, &name.tenant)
        }
        _ => false,
    }
}

/// Whether an action suspends its path.
fn is_suspend(action: &Action) -> bool
    ensures { result ≡ is_suspend action.now }
{
    match action {
        Action::Suspend => true,
        _ => false,
    }
}

/// Whether a firing, where it is in force, holds back a message.
#[tactic(auto, using(crate::proofs::SiteWalks::same_site_back), unfolding(policy_core::specs::Site::is_at_site))]
fn holds_back(policy: &Policy, firing: &RuleMatch, message: &Message) -> bool
    ensures { result ≡ (is_same_site firing.now.path.site (site_of policy.now message.now.name.domain)
        && covers firing.now.rule.action firing.now.name message.now.name) }
{
    is_at_site(policy, message.name.domain.as_str(), &firing.path.site)
        && covers(&firing.rule.action, &firing.name, &message.name)
}

/// Whether some firing in force holds back a message. `firings` are those of the history.
pub fn is_covered(policy: &Policy, firings: &[RuleMatch], t: u64, message: &Message) -> bool
    ensures { result ≡ list_any (λ f. is_same_site f.path.site (site_of policy.now message.now.name.domain)
        && covers f.rule.action f.name message.now.name) (filter (is_in_force t) firings.now) }
{
    for firing in firings {
        if is_in_force(firing, t) && holds_back(policy, firing, message) {
            return true;
        }
    }
    false
}

/// Whether some firing in force suspends a path.
fn is_path_suspended(firings: &[RuleMatch], t: u64, path: &Path) -> bool
    ensures { result ≡ list_any (λ f. is_suspend f.rule.action && is_same_path f.path path.now)
        (filter (is_in_force t) firings.now) }
{
    for firing in firings {
        if is_in_force(firing, t) && is_suspend(&firing.rule.action) && firing.path.is_same(path) {
            return true;
        }
    }
    false
}

/// Whether an order or a firing halts a path, whose text is `text`. `firings` are those of the history.
pub fn is_halted(entries: &[Entry], firings: &[RuleMatch], t: u64, path: &Path, text: &str) -> bool
    requires { text.now ≡ text_of path.now }
    ensures { result ≡ (is_suspended entries.now t text.now
        || list_any (λ f. is_suspend f.rule.action && is_same_path f.path path.now) (filter (is_in_force t) firings.now)) }
{
    is_suspended(entries, t, text) || is_path_suspended(firings, t, path)
}
