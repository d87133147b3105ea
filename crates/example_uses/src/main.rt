//! Uses of versions, each a module that prints what it sees: price lists, records with drafts,
//! records by time, a routing table, policies of tenants, facts joined with an older snapshot, an
//! undo history, drafts that are merged, and a replica that is sent what changed.
#![tactic(auto)]

mod drafts;
mod facts;
mod history;
mod policies;
mod prices;
mod records;
mod replica;
mod routes;
mod timeline;

fn main(rt: HostRuntime) -> anyhow::Result<()> {
    prices::show(&rt)?;
    records::show(&rt)?;
    timeline::show(&rt)?;
    routes::show(&rt)?;
    policies::show(&rt)?;
    facts::show(&rt)?;
    history::show(&rt)?;
    drafts::show(&rt)?;
    replica::show(&rt)?;
    Ok(())
}
