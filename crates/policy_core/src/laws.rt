//! Laws of layers, of the names of options, of sites and of rotations. Each function does nothing: its contract is the law,
//! and the check proves it.
ghost use Rattle.std.specs.Prelude.{◌≡◌, ◌<◌, ◌==◌, ◌∷◌, ◌++◌, [], ℕ, List, length, map, bytes_eq, slice_index, count_by, IsTrue, Some, None};
ghost use Rattle.std.specs.List.{list_any};
ghost use Rattle.policy_core.specs.Layers.{settings_in, laid_over};
ghost use Rattle.policy_core.specs.PathOptions.{options_in, options_over};
ghost use Rattle.policy_core.specs.OptionNames.{name_of_option, option_names, option_named};
ghost use Rattle.policy_core.specs.Rotation.{rotation_of};
ghost use Rattle.policy_core.specs.Mx.{hosts_in};
ghost use Rattle.policy_core.specs.Policy.{Policy};
ghost use Rattle.policy_core.specs.Site.{site_of, domains_of, domain_shape, rollup_of};
ghost use Rattle.policy_core.specs.declared.settings.Layer.{Layer};
ghost use Rattle.policy_core.specs.declared.options.Options.{Options};
ghost use Rattle.policy_core.specs.declared.option_name.OptionName.{OptionName};
ghost use Rattle.policy_core.specs.declared.option_name.TheConstants.{OPTION_NAMES};
ghost use Rattle.policy_core.specs.Limits.{policy_name_limit, default_connection_limit, default_max_deliveries, default_max_ready, default_failures_before_delay, greatest_option, greatest_count, default_max_age, default_retry_interval, unspecified, localhost};
ghost use Rattle.policy_core.specs.declared.names.TheConstants.{POLICY_NAME_LIMIT};
ghost use Rattle.policy_core.specs.declared.options.TheConstants.{DEFAULT_CONNECTION_LIMIT, DEFAULT_MAX_DELIVERIES, DEFAULT_MAX_READY, DEFAULT_FAILURES_BEFORE_DELAY, GREATEST_OPTION};
ghost use Rattle.policy_core.specs.declared.rules.TheConstants.{GREATEST_COUNT};
ghost use Rattle.policy_core.specs.declared.settings.TheConstants.{DEFAULT_MAX_AGE, DEFAULT_RETRY_INTERVAL, UNSPECIFIED, DEFAULT_EHLO};

/// What a last layer sets counts, and what it does not set is as the layers below it have it.
pub fn last_layer_lies_over_others()
    ensures { (layers : List Layer) (layer : Layer) → settings_in (layers ++ layer ∷ [])
        ≡ laid_over (settings_in layers) layer }
{}

/// What a last table sets of a path's options counts, and what it does not set is as the tables below it have it.
pub fn last_options_lie_over_others()
    ensures { (layers : List Options) (layer : Options) → options_in (layers ++ layer ∷ [])
        ≡ options_over (options_in layers) layer }
{}

/// Different options have different names.
pub fn each_option_has_a_name_of_its_own()
    ensures { (a b : OptionName) → name_of_option a ≡ name_of_option b → a ≡ b }
{}

/// Every option is in the list: a search by its name finds it.
pub fn each_option_is_found_by_its_name()
    ensures { (o : OptionName) → option_named (name_of_option o) ≡ Some o }
{}

/// The list of options that the code has is that of the definitions.
pub fn options_are_as_listed()
    ensures { OPTION_NAMES ≡ option_names }
{}

/// A domain is among the domains of its own site where it has a row of mail exchangers, where it has a shaping table, and
/// where it is a host that has no row and shares its site.
pub fn a_domain_is_of_its_site()
    ensures row { (policy : Policy) (domain : List ℕ) → IsTrue
        (list_any (bytes_eq domain) (map (λ row. row.domain) policy.mx))
        → IsTrue (list_any (bytes_eq domain) (domains_of policy (site_of policy domain))) }
    ensures shape { (policy : Policy) (domain : List ℕ) → IsTrue
        (list_any (bytes_eq domain) (map (λ shape. shape.domain) policy.shaping.domains))
        → IsTrue (list_any (bytes_eq domain) (domains_of policy (site_of policy domain))) }
    ensures host { (policy : Policy) (domain : List ℕ) → hosts_in policy.mx domain ≡ None
        → IsTrue (rollup_of (domain_shape policy.shaping domain))
        → IsTrue (list_any (bytes_eq domain) (domains_of policy (site_of policy domain))) }
{}

/// An entrant has as many turns in a rotation as its weight says.
pub fn turns_are_as_many_as_weight()
    ensures { (weights : List ℕ) (k : ℕ) → k < length weights
        → count_by (λ place. place.entrant == k) (rotation_of weights) ≡ slice_index weights k }
{}

/// The limits that the code has are those that the definitions state.
pub fn limits_are_as_stated()
    ensures policy_name_is { POLICY_NAME_LIMIT ≡ policy_name_limit }
    ensures connection_is { DEFAULT_CONNECTION_LIMIT ≡ default_connection_limit }
    ensures max_deliveries_is { DEFAULT_MAX_DELIVERIES ≡ default_max_deliveries }
    ensures max_ready_is { DEFAULT_MAX_READY ≡ default_max_ready }
    ensures failures_before_delay_is { DEFAULT_FAILURES_BEFORE_DELAY ≡ default_failures_before_delay }
    ensures greatest_option_is { GREATEST_OPTION ≡ greatest_option }
    ensures greatest_count_is { GREATEST_COUNT ≡ greatest_count }
    ensures max_age_is { DEFAULT_MAX_AGE ≡ default_max_age }
    ensures retry_interval_is { DEFAULT_RETRY_INTERVAL ≡ default_retry_interval }
    ensures unspecified_is { UNSPECIFIED.now ≡ unspecified }
    ensures localhost_is { DEFAULT_EHLO.now ≡ localhost }
{}
