use crate::mem_files::MemFiles;
use std::alloc::Global;
use wd_base::{Bytes, Ip4, Ips, LinkNo, NoMemory, Numbers, Seq, SockNo, TryClone};

/// What happens at a port in memory. In a plan `LinkNo(n)` is the link of the n-th `Accept` of the
/// plan, n from 1, whatever number `accept` gives it.
#[derive(Debug, Drop)]
pub enum PortEvent {
    /// A link comes at a socket. At one that `listen` did not give it makes no link.
    Accept(SockNo),
    /// Bytes come on a link.
    Bytes(LinkNo, Bytes),
    /// The other end of a link sends no further byte.
    End(LinkNo),
    /// A link is gone.
    Gone(LinkNo),
}

/// Events in order, each with a mark: the next one happens once the port's marks have reached it.
pub type Timed = Seq<(u64, PortEvent)>;

/// Hosts, each with its addresses.
pub type Hosts = Seq<(Bytes, Ips)>;

/// What a port in memory connects to: a peer that takes what is sent and, once the port's marks
/// have reached its own, answers with its reply and then the end.
#[derive(Debug, Drop)]
pub struct Peer {
    pub ip: Ip4,
    pub port: u16,
    pub reply: Bytes,
    pub mark: u64,
}

/// A list of peers.
pub type Peers = Seq<Peer>;

/// What a port in memory is made of: its events, the addresses of hosts, the peers, its files, and
/// the numbers of its calls that fail.
#[derive(Debug, Drop)]
pub struct PortPlan {
    pub events: Timed,
    pub hosts: Hosts,
    pub peers: Peers,
    pub files: MemFiles,
    pub fail: Numbers,
}

/// A plan for each seat, in the order of seats.
pub type Plans = Seq<PortPlan>;

impl TryClone for PortEvent {
    fn try_clone(&self, alloc: Global) -> Result<PortEvent, NoMemory> {
        match self {
            PortEvent::Accept(socket) => Ok(PortEvent::Accept(*socket)),
            PortEvent::Bytes(link, bytes) => Ok(PortEvent::Bytes(*link, bytes.try_clone(alloc)?)),
            PortEvent::End(link) => Ok(PortEvent::End(*link)),
            PortEvent::Gone(link) => Ok(PortEvent::Gone(*link)),
        }
    }
}

impl TryClone for Peer {
    fn try_clone(&self, alloc: Global) -> Result<Peer, NoMemory> {
        let reply = self.reply.try_clone(alloc)?;
        Ok(Peer {
            ip: self.ip,
            port: self.port,
            reply,
            mark: self.mark,
        })
    }
}

impl TryClone for PortPlan {
    fn try_clone(&self, alloc: Global) -> Result<PortPlan, NoMemory> {
        let events = self.events.try_clone(alloc)?;
        let hosts = self.hosts.try_clone(alloc)?;
        let peers = self.peers.try_clone(alloc)?;
        let files = self.files.try_clone(alloc)?;
        let fail = self.fail.try_clone(alloc)?;
        Ok(PortPlan {
            events,
            hosts,
            peers,
            files,
            fail,
        })
    }
}
