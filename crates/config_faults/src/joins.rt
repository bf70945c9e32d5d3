//! The types of policy that are made of others.
ghost use Rattle.std.specs.Prelude.{◌≡◌};
ghost use Rattle.toml.specs.View.{table_view};
ghost use Rattle.config_faults.specs.Keys as spec;

use crate::keys::type_at;
use crate::policy_types::PolicyType;
use policy_tree::Join;
use toml::Table;

/// The type of policy that is joined so.
pub fn join_type(join: Join) -> PolicyType
    ensures { result ≡ spec.join_type join }
{
    match join {
        Join::And | Join::Share => PolicyType::And,
        Join::Not => PolicyType::Not,
        Join::Drop => PolicyType::Drop,
        Join::FirstMatch => PolicyType::Composite,
    }
}

/// The key of the policies that are joined, in the settings of such a policy.
pub fn sub_key(join: Join) -> &'static str
    ensures { result.now ≡ spec.sub_key join }
{
    match join {
        Join::And | Join::Share => "and_sub_policy",
        Join::Not => "not_sub_policy",
        Join::Drop => "drop_sub_policy",
        Join::FirstMatch => "composite_sub_policy",
    }
}

/// How the policies of a policy table are joined, and `And` where its type isn't made of others.
pub fn join_at(table: &Table) -> Join
    ensures { result ≡ spec.join_at (table_view table.now) }
{
    match type_at(table) {
        Some(PolicyType::Not) => Join::Not,
        Some(PolicyType::Drop) => Join::Drop,
        Some(PolicyType::Composite) => Join::FirstMatch,
        _ => Join::And,
    }
}
