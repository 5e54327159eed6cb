//! Runs at an address to which others connect first: they are dropped, also if they fill the listener's queue.

use crate::running::{args, ended_with, ran};
use pon_worker::OpenGate;
use std::alloc::Allocator;
use std::fmt::Display;
use std::fs::{Metadata, OpenOptions};
use std::io::{self, Lines};
use std::net::{Net, SocketAddr, TcpListener, TcpStream};
use std::process::Abort;
use std::random::RandomSource;
use std::rt::Files;
use std::sync::Wait;
use std::thread::Threads;
use std::time::{Clock, Duration};

/// A runtime in which others connect to each listener as soon as it is bound, and another one just before each connection
/// that is made. They leave at once, but wait in the queue of the listener.
#[derive(Drop)]
struct Crowded<R> {
    rt: R,
    others: u32,
}

impl<R: Net<Listener = TcpListener, Stream = TcpStream>> Net for Crowded<R> {
    type Stream = TcpStream;

    type Listener = TcpListener;

    fn bind(&self, address: SocketAddr) -> io::Result<TcpListener> {
        let listener = self.rt.bind(address)?;
        let address = listener.local_addr()?;
        for _other in 0..self.others {
            let _stream = self.rt.connect(address)?;
        }
        Ok(listener)
    }

    fn connect(&self, address: SocketAddr) -> io::Result<TcpStream> {
        self.rt.connect(address)
    }

    fn connect_timeout(&self, address: SocketAddr, timeout: Duration) -> io::Result<TcpStream> {
        let _stream = self.rt.connect(address)?;
        self.rt.connect_timeout(address, timeout)
    }
}

impl<R: Wait> Wait for Crowded<R> {}

impl<R: Threads> Threads for Crowded<R> {}

impl<R: Clock> Clock for Crowded<R> {
    fn monotonic(&self) -> io::Result<Duration> {
        self.rt.monotonic()
    }

    fn since_1970(&self) -> io::Result<Duration> {
        self.rt.since_1970()
    }

    fn sleep(&self, duration: Duration) {
        self.rt.sleep(duration)
    }
}

impl<R: RandomSource> RandomSource for Crowded<R> {
    fn fill_bytes(&self, buf: &mut [u8]) -> io::Result<()> {
        self.rt.fill_bytes(buf)
    }
}

impl<R: Eprint> Eprint for Crowded<R> {
    fn eprint<D: Display + Drop>(&self, value: D) -> io::Result<()> {
        self.rt.eprint(value)
    }

    fn eprintln<D: Display + Drop>(&self, value: D) -> io::Result<()> {
        self.rt.eprintln(value)
    }
}

impl<R: Input> Input for Crowded<R> {
    type Reader = R::Reader;

    fn read_line<A: Allocator + Clone>(&self, buf: &mut String<A>) -> io::Result<usize> {
        self.rt.read_line(buf)
    }

    fn lines<A: Allocator>(&self, alloc: A) -> Lines<R::Reader, A> {
        self.rt.lines(alloc)
    }

    fn reader(&self) -> R::Reader {
        self.rt.reader()
    }
}

impl<R: Abort> Abort for Crowded<R> {
    fn abort(&self) -> ! {
        self.rt.abort()
    }

    fn exit(&self, code: i32) -> ! {
        self.rt.exit(code)
    }

    fn panic<D: Display + Drop>(&self, message: D) -> ! {
        self.rt.panic(message)
    }
}

impl<R: Files> Files for Crowded<R> {
    type File = R::File;

    type Dir = R::Dir;

    fn open_file(&self, how: &OpenOptions, path: &str) -> io::Result<R::File> {
        self.rt.open_file(how, path)
    }

    fn open_dir(&self, path: &str) -> io::Result<R::Dir> {
        self.rt.open_dir(path)
    }

    fn metadata(&self, path: &str) -> io::Result<Metadata> {
        self.rt.metadata(path)
    }

    fn symlink_metadata(&self, path: &str) -> io::Result<Metadata> {
        self.rt.symlink_metadata(path)
    }

    fn copy(&self, from: &str, to: &str) -> io::Result<u64> {
        self.rt.copy(from, to)
    }

    fn rename(&self, from: &str, to: &str) -> io::Result<()> {
        self.rt.rename(from, to)
    }

    fn remove_file(&self, path: &str) -> io::Result<()> {
        self.rt.remove_file(path)
    }

    fn create_dir(&self, path: &str) -> io::Result<()> {
        self.rt.create_dir(path)
    }

    fn remove_dir(&self, path: &str) -> io::Result<()> {
        self.rt.remove_dir(path)
    }

    fn remove_dir_all<B: Allocator>(&self, alloc: B, path: &str) -> io::Result<()> {
        self.rt.remove_dir_all(alloc, path)
    }
}

// Numbers of others: a few, and as many as fill the queue of a listener, so that a further one is not answered.
static OTHERS: [u32; 2] = [3, 129];

#[test]
fn others_are_dropped(rt: HostRuntime) {
    for others in OTHERS {
        let alloc = rt.alloc();
        let crowded = Crowded { rt: &rt, others };
        let run = ran(&crowded, alloc, 1, args(3), &OpenGate);
        let is_run = ended_with(run, 0, "port 0 maps 3 entries 7 reports 3 dropped 0\n");
        assert!(rt; is_run, "{others} others");
    }
}
