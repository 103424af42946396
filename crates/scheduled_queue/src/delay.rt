//! How long a message waits after a failure.
ghost use Rattle.std.specs.Prelude.{◌≡◌};
ghost use Rattle.policy_core.specs.Delays.{delay_after};

use kumo_base::LAST_MOMENT;
use policy_core::Settings;

/// How long a message waits after its n-th failure, counted from 1, in milliseconds. The wait doubles with each failure, up
/// to the bound of the settings where they have one, and is never above `LAST_MOMENT` (`retry_interval` and
/// `max_retry_interval` of KumoMTA's `make_queue_config`).
pub fn delay_after(settings: &Settings, n: u32) -> u64
    ensures { result ≡ delay_after settings.now n }
{
    let factor = 2_u64.saturating_pow(n.saturating_sub(1));
    let wait = settings.retry_interval.saturating_mul(factor);
    let bound = settings.max_retry_interval.unwrap_or(LAST_MOMENT);
    wait.min(bound).min(LAST_MOMENT)
}
