//! A policy table: the rules of each tenant stand under its name. A tenant is taken out, gets back
//! the rules of an older table, or has its own taken along; the others keep theirs.
ghost use Rattle.std.specs.Prelude.{◌≡◌, ℕ, false, if◌then◌else◌, IfOk, IsTrue, List, None, OnErr, OnOk};
ghost use Rattle.rart_below.specs.Bytes.{begins};
ghost use Rattle.rart_maps.specs.Versions.{HasRoom, value_at};

use rart_maps::laws::prefixes::prefix_calls_answer;
use rart_versioned::{KeyTrait, VectorKey, VersionedAdaptiveRadixTree};
use std::alloc::AllocError;

type Policies = VersionedAdaptiveRadixTree<VectorKey, u64>;

/// Takes out all rules of a tenant, and says whether it had one. No other tenant loses or gets one.
/// Refused for memory, all is as before.
pub fn drop_tenant(policies: &mut Policies, tenant: &[u8]) -> Result<bool, AllocError>
    requires room { HasRoom policies.old 1 }
    ensures gone { OnOk result ((rule : List ℕ) → IsTrue (begins tenant.now rule)
        → value_at policies.new rule ≡ None) }
    ensures others { (rule : List ℕ) → begins tenant.now rule ≡ false
        → value_at policies.new rule ≡ value_at policies.old rule }
    ensures refused { OnErr result (policies.new ≡ policies.old) }
{
    prefix_calls_answer::<u64>();
    policies.remove_prefix(tenant)
}

/// Gives a tenant back the rules that it had in an older table. The others keep those of now.
/// Refused for memory, all is as before.
pub fn roll_back_tenant(
    policies: &mut Policies,
    tenant: &[u8],
    older: &Policies,
) -> Result<(), AllocError>
    requires room { HasRoom policies.old older.now.number }
    ensures rules { OnOk result ((rule : List ℕ) → IsTrue (begins tenant.now rule)
        → value_at policies.new rule ≡ value_at older.now rule) }
    ensures others { (rule : List ℕ) → begins tenant.now rule ≡ false
        → value_at policies.new rule ≡ value_at policies.old rule }
    ensures refused { OnErr result (policies.new ≡ policies.old) }
{
    prefix_calls_answer::<u64>();
    policies.restore_prefix(tenant, older)
}

/// The rules of a tenant as a table of their own, which shares them with this one; or out of
/// memory.
pub fn export_tenant(policies: &Policies, tenant: &[u8]) -> Result<Policies, AllocError>
    requires room { HasRoom policies.now 1 }
    ensures rules { IfOk result (λ part. (rule : List ℕ) → value_at part rule
        ≡ (if begins tenant.now rule then value_at policies.now rule else None)) }
{
    prefix_calls_answer::<u64>();
    policies.prefix_snapshot(tenant)
}

fn set(policies: &mut Policies, rule: &str, value: u64) -> Result<(), AllocError> {
    if policies.version() < u64::MAX {
        policies.insert_bytes(rule, value)?;
    }
    Ok(())
}

fn print(rt: &HostRuntime, title: &str, policies: &Policies) -> anyhow::Result<()> {
    println!(rt; "{title}")?;
    for item in policies.iter()? {
        let (rule, value) = item?;
        println!(rt; "  {} {value}", str::from_utf8(rule.as_ref())?)?;
    }
    Ok(())
}

pub fn show(rt: &HostRuntime) -> anyhow::Result<()> {
    let mut policies = Policies::new(rt.alloc());
    for (rule, value) in [("acme/seats", 5), ("acme/size", 20), ("bolt/seats", 3)] {
        set(&mut policies, rule, value)?;
    }
    let yesterday = policies.clone()?;
    set(&mut policies, "acme/seats", 50)?;
    set(&mut policies, "bolt/seats", 4)?;
    if policies.version() < u64::MAX - yesterday.version() {
        roll_back_tenant(&mut policies, b"acme/", &yesterday)?;
        print(rt, "policies, acme's as they were yesterday", &policies)?;
    }
    if policies.version() < u64::MAX {
        let acme = export_tenant(&policies, b"acme/")?;
        drop_tenant(&mut policies, b"acme/")?;
        print(rt, "policies of acme, kept apart", &acme)?;
    }
    print(rt, "policies without acme", &policies)
}
