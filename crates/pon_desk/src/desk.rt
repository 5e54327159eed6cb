use crate::books::Books;
use crate::closed::Closed;
use crate::closing::compare_counts;
use crate::fault::{CloseFault, DeskFault};
use crate::held::Held;
use crate::opening::{lock_each, open_ports, open_seats};
use crate::receipt::Receipt;
use crate::resuming::{Counted, count_ports, resume_seats};
use crate::seat::Seat;
use crate::view::{PortView, view_of};
use pon_admit::Event;
use pon_descr::Refusal;
use pon_plant::{PlantFault, StepFault};
use pon_port::{Chapter, Port, PortCfg};
use pon_units::{FrameNo, MAX_PORTS, PortNo};
use std::alloc::Global;
use std::marker::Model;
use std::sync::ledger::{Blank, Ledger};
use std::sync::{Mutex, Wait};

/// The ports of a line terminal, 1 to 64, each under its own lock, for threads that post to them.
///
/// Contracts see the number of ports, and the number of seats that were opened.
#[derive(Drop)]
pub struct Desk<L: Ledger, M: Ledger> {
    ports: Vec<Mutex<Held<L>>>,
    books: Mutex<Books<L, M>>,
    seats: usize,
    // Room for the ports that `close` returns.
    room: Vec<Port>,
    counts: Vec<u64>,
    // The configuration and the first frame with which each port was to be opened. None if the ports took entries before.
    opened: Vec<(PortCfg, FrameNo)>,
}

impl<L: Ledger, M: Ledger> Model for Desk<L, M> {
    ghost use Rattle.std.specs.Prelude.{◌≡◌, ◌≤◌, replicate, vec_len, vec_capacity};
    ghost use Rattle.pon_plant.specs.Plants.{IsPlantSize};
    ghost use Rattle.pon_desk.specs.Counts.{DeskSize};

    ghost Value = { DeskSize };

    ghost view = { λ d. record { ports = vec_len d.ports; seats = d.seats; opened = d.opened.items } };

    ghost invariant = { λ d. (vec_len d.ports ≡ L.parts) × (d.seats ≡ M.parts)
        × (vec_len d.room ≡ 0) × (vec_len d.ports ≤ vec_capacity d.room)
        × (d.counts.items ≡ replicate L.parts 0) × IsPlantSize (vec_len d.ports) };
}

impl<L: Ledger, M: Ledger> Desk<L, M> {
    ghost use Rattle.std.specs.Prelude.{◌≡◌, ◌<◌, ◌≤◌, ◌↔◌, ◌⊎◌, length, map, vec_len, IfOk, IfErr, OnOk, OnErr};
    ghost use Rattle.std.specs.Fn.{FnOnceReturnsAt};
    ghost use Rattle.pon_history.specs.Chapters.{Chapter, IsLawfulChapter};
    ghost use Rattle.pon_plant.specs.Plants.{IsPlantSize, TellsOpening};
    ghost use Rattle.pon_desk.specs.Counts.{AreResumed, AreUnused, IsEven, one_more_at, taken_of};
    ghost use Rattle.pon_desk.specs.Faults.{IsNoSuchPort, TellsClosing, TellsRefusal, TellsResuming, TellsTurn};
    ghost use Rattle.pon_desk.specs.Posts.{IsSomePost, IsSomeTurn, NamesPost};
    ghost use Rattle.pon_desk.specs.Views.{view_of};

    /// Opens a port for each configuration and first frame, numbered from 0 in their order, and returns the desk with
    /// the seats.
    ///
    /// Requires at least one seat; the blank of the ports' ledger must have one part for each port, the blank of the
    /// seats' ledger one for each seat.
    ///
    /// # Errors
    ///
    /// `Ports` exactly when there are no ports or more than 64; `Memory` only if memory is refused. On an error the
    /// blanks are dropped.
    pub fn open(
        alloc: Global,
        of_ports: Blank,
        of_seats: Blank,
        ports: &[(PortCfg, FrameNo)],
        seats: usize,
    ) -> Result<(Desk<L, M>, Vec<Seat<L, M>>), PlantFault>
        requires ports { (of_ports.name ≡ L.name) × (of_ports.parts ≡ L.parts)
            × (L.parts ≡ length ports.now) }
        requires seats { (of_seats.name ≡ M.name) × (of_seats.parts ≡ M.parts)
            × (M.parts ≡ seats) }
        requires some { 0 < seats }
        ensures ports { IfOk result (λ r. r.0.ports ≡ length ports.now) }
        ensures seats { IfOk result (λ r. r.0.seats ≡ seats) }
        ensures unused { IfOk result (λ r. AreUnused seats (length ports.now) r.1.items) }
        ensures opened { IfOk result (λ r. r.0.opened ≡ ports.now) }
        ensures size { IfOk result (λ r. IsPlantSize (length ports.now)) }
        ensures err { IfErr result (λ fault. TellsOpening (length ports.now) fault) }
    {
        if ports.is_empty() || ports.len() > MAX_PORTS {
            return Err(PlantFault::Ports);
        }
        let (of_ports, mut all_ports) = of_ports.open::<L>();
        let (of_seats, mut all_seats) = of_seats.open::<M>();
        let locks = open_ports(alloc, ports, &mut all_ports)?;
        let opened = open_seats::<L, M>(alloc, ports.len(), seats, &mut all_seats)?;
        let books = Books::<L, M>::new(0, of_ports, of_seats, all_ports, all_seats);
        let desk = Desk {
            ports: locks,
            books: Mutex::new(books),
            seats,
            room: Vec::with_capacity(alloc, ports.len())?,
            counts: vec![in alloc; 0; ports.len()]?,
            opened: ports.to_vec(alloc)?,
        };
        Ok((desk, opened))
    }

    /// Puts ports that may have taken entries before under the locks of a desk, numbered from 0 in their order, and returns
    /// the desk with the seats. The last seat counts the entries that the ports took before, as if it had posted them; the
    /// others have no posts. The ports of this desk cannot be settled, since only a part of their entries has receipts.
    ///
    /// Requires at least one seat; the blank of the ports' ledger must have one part for each port, the blank of the
    /// seats' ledger one for each seat.
    ///
    /// # Errors
    ///
    /// `Ports` exactly when there are no ports or more than 64; `Entries` only if the ports took 2^64 entries or more
    /// together; `Memory` only if memory is refused. On an error the ports and the blanks are dropped.
    pub fn resume(
        alloc: Global,
        of_ports: Blank,
        of_seats: Blank,
        ports: Vec<Port>,
        seats: usize,
    ) -> Result<(Desk<L, M>, Vec<Seat<L, M>>), DeskFault>
        requires ports { (of_ports.name ≡ L.name) × (of_ports.parts ≡ L.parts)
            × (L.parts ≡ vec_len ports) }
        requires seats { (of_seats.name ≡ M.name) × (of_seats.parts ≡ M.parts)
            × (M.parts ≡ seats) }
        requires some { 0 < seats }
        ensures ports { IfOk result (λ r. r.0.ports ≡ vec_len ports) }
        ensures seats { IfOk result (λ r. r.0.seats ≡ seats) }
        ensures counted { IfOk result (λ r. AreResumed seats (map taken_of ports.items) r.1.items) }
        ensures size { IfOk result (λ r. IsPlantSize (vec_len ports)) }
        ensures err { IfErr result (λ fault. TellsResuming ports.items fault) }
    {
        let count = ports.len();
        if count == 0 || count > MAX_PORTS {
            return Err(DeskFault::Ports);
        }
        let (mut of_ports, mut all_ports) = of_ports.open::<L>();
        let (mut of_seats, mut all_seats) = of_seats.open::<M>();
        let Counted {
            held,
            counts,
            entries,
        } = count_ports(alloc, ports, &mut of_ports, &mut all_ports)?;
        let opened = resume_seats::<L, M>(
            alloc,
            seats,
            counts,
            entries,
            &mut of_seats,
            &mut all_seats,
        )?;
        let books = Books::<L, M>::new(entries, of_ports, of_seats, all_ports, all_seats);
        let desk = Desk {
            ports: lock_each(alloc, held)?,
            books: Mutex::new(books),
            seats,
            room: Vec::with_capacity(alloc, count)?,
            counts: vec![in alloc; 0; count]?,
            opened: Vec::new(alloc),
        };
        Ok((desk, opened))
    }

    /// Number of ports, 1 to 64. A seat of the desk has as many counts.
    pub fn ports(&self) -> usize
        ensures value { result ≡ self.now.ports }
        ensures ledger { result ≡ L.parts }
        ensures size { IsPlantSize result }
    {
        self.ports.len()
    }

    /// Posts an event at a port, under that port's lock, by one call of [`Held::post`]. Only an accepted post is
    /// counted at the seat.
    ///
    /// # Errors
    ///
    /// `NoSuchPort` exactly when the desk has no such port; otherwise `Refused` with the refusal of [`Held::post`].
    pub fn post<R: Wait>(
        &self,
        rt: &R,
        seat: &mut Seat<L, M>,
        port: PortNo,
        event: Event,
    ) -> Result<Receipt, StepFault>
        ensures no_such { IsNoSuchPort result ↔ self.now.ports ≤ port }
        // The state of the port at that moment is not stated, only that it was lawful.
        ensures posted { IfOk result (λ receipt. IsSomePost event receipt) }
        ensures names { IfOk result (λ receipt. NamesPost port seat.old receipt) }
        ensures refused { IfErr result (λ fault. TellsRefusal event fault) }
        ensures counted { OnOk result (seat.new ≡ one_more_at port seat.old) }
        ensures err { OnErr result (seat.new ≡ seat.old) }
    {
        let Some(lock) = self.ports.get(usize::from(port.get())) else {
            return Err(StepFault::NoSuchPort);
        };
        prove!(usize::from(port.get()) < seat.counts().len());
        let mut held = lock.lock(rt);
        prove!(held.port().history().len() <= usize::MAX);
        match held.post(rt, &self.books, seat, port, event) {
            Ok(receipt) => Ok(receipt),
            Err(refusal) => Err(StepFault::Refused(refusal)),
        }
    }

    /// Turns a port, under that port's lock, by one call of [`Held::turn`]. It changes no count.
    ///
    /// The chapter is lawful, as each [`Chapter`] is by its type; that it is the one that the named port kept is not
    /// stated.
    ///
    /// # Errors
    ///
    /// `NoSuchPort` exactly when the desk has no such port; otherwise `Refused` with the refusal of [`Held::turn`].
    pub fn turn<R: Wait>(&self, rt: &R, port: PortNo) -> Result<Chapter, StepFault>
        ensures no_such { IsNoSuchPort result ↔ self.now.ports ≤ port }
        ensures turned { IfOk result (λ chapter. IsSomeTurn chapter) }
        ensures refused { IfErr result TellsTurn }
    {
        let Some(lock) = self.ports.get(usize::from(port.get())) else {
            return Err(StepFault::NoSuchPort);
        };
        let mut held = lock.lock(rt);
        prove!(held.port().history().len() <= usize::MAX);
        match held.turn() {
            Ok(chapter) => Ok(chapter),
            Err(refusal) => Err(StepFault::Refused(refusal)),
        }
    }

    /// Calls `look` on a port under that port's lock only, and returns its result. `look` must accept any port.
    ///
    /// # Errors
    ///
    /// `NoSuchPort`, exactly when the desk has no such port.
    pub fn inspect<T, F: FnOnce(&Port) -> T, R: Wait>(
        &self,
        rt: &R,
        port: PortNo,
        look: F,
    ) -> Result<T, StepFault>
        requires { F.IsAlwaysCallable look }
        ensures no_such { IsNoSuchPort result ↔ self.now.ports ≤ port }
        ensures answer { IfOk result (λ answer.
            (at : Chapter) × IsLawfulChapter at × FnOnceReturnsAt F.FnOnce look at answer) }
        ensures err { IfErr result (λ fault. fault ≡ StepFault.NoSuchPort) }
    {
        let Some(lock) = self.ports.get(usize::from(port.get())) else {
            return Err(StepFault::NoSuchPort);
        };
        let held = lock.lock(rt);
        Ok(look(held.port()))
    }

    /// Copies the view of a port, as it is at some moment, under that port's lock.
    ///
    /// # Errors
    ///
    /// `NoSuchPort` exactly when the desk has no such port; otherwise `Refused` with `OutOfMemory`, only if memory for
    /// the copy is refused.
    pub fn look<R: Wait>(&self, rt: &R, alloc: Global, port: PortNo) -> Result<PortView, StepFault>
        ensures no_such { IsNoSuchPort result ↔ self.now.ports ≤ port }
        ensures view { IfOk result (λ view.
            (at : Chapter) × IsLawfulChapter at × (view ≡ view_of at)) }
        ensures err { IfErr result (λ fault. (fault ≡ StepFault.NoSuchPort)
            ⊎ (fault ≡ StepFault.Refused Refusal.OutOfMemory)) }
    {
        let Some(lock) = self.ports.get(usize::from(port.get())) else {
            return Err(StepFault::NoSuchPort);
        };
        let held = lock.lock(rt);
        match view_of(alloc, held.port()) {
            Ok(view) => Ok(view),
            Err(_) => Err(StepFault::Refused(Refusal::OutOfMemory)),
        }
    }

    /// Closes the desk: each port took as many entries as the seats count at it. Seats of another desk do not compile.
    /// It allocates no memory.
    ///
    /// # Errors
    ///
    /// `Missing` exactly when there are fewer seats than were opened. `Uneven` exactly when all seats are given and
    /// some port took another number of entries than they count at it.
    pub fn close(self, seats: Vec<Seat<L, M>>) -> Result<Closed, CloseFault<L, M>>
        ensures ports { IfOk result (λ closed. length closed.ports ≡ self.ports) }
        ensures opened { IfOk result (λ closed. closed.opened ≡ self.opened) }
        ensures seats { IfOk result (λ closed. length seats.items ≡ self.seats) }
        ensures even { IfOk result (λ closed. IsEven closed.ports seats.items) }
        ensures err { IfErr result (λ fault. TellsClosing self seats.items fault) }
    {
        if seats.len() < self.seats {
            return Err(CloseFault::Missing { desk: self, seats });
        }
        let Desk {
            ports,
            books,
            seats: _,
            room,
            counts,
            opened,
        } = self;
        match compare_counts(books.into_inner(), ports, seats, room, counts) {
            Ok(ports) => Ok(Closed { ports, opened }),
            Err((ports, counts)) => Err(CloseFault::Uneven { ports, counts }),
        }
    }
}
