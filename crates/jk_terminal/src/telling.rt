//! How far work on an image is, or on several files, told on a terminal by a thread beside it.

use crate::line::{BLANK, FIRST, PAUSE};
use jk_jobs::Gate;
use jk_words::{FilesProgress, Progress, Work};
use std::alloc::Global;
use std::fmt::Display;
use std::sync::atomic::{AtomicU64, Ordering};
use std::sync::{Arc, Condvar, Mutex, Wait};
use std::thread::{JoinHandle, Threads};
use std::time::{Clock, Duration, Instant};
use std::{io, thread};

/// What is worked on.
#[derive(Clone, Copy)]
enum Subject {
    /// The image of a file of so many bytes, if it is known how many, and what is done to it.
    Image(Work, Option<u64>),
    /// So many files.
    Files(u64),
}

/// The work that goes on.
#[derive(Clone, Copy)]
struct Begun {
    subject: Subject,
    at: Instant,
}

/// What is told of.
#[derive(Drop)]
struct Told {
    begun: Option<Begun>,
    /// Whether a line stands there.
    is_shown: bool,
    /// Whether no more work comes.
    is_over: bool,
}

impl Told {
    /// Whether there is nothing to tell, and work may come.
    fn is_idle(&self) -> bool {
        self.begun.is_none() && !self.is_over
    }
}

/// What the thread that works and the one that tells share.
#[derive(Drop)]
pub struct Telling {
    told: Mutex<Told>,
    changed: Condvar,
    /// Of how many jobs of code-blocks, each of one or of several small ones, workers have told since
    /// work began that they have ended.
    coded: AtomicU64,
    /// How many bytes were written since then.
    written: AtomicU64,
    /// How many files are done since then.
    done: AtomicU64,
}

impl Telling {
    /// Of no work yet.
    fn new() -> Telling {
        Telling {
            told: Mutex::new(Told {
                begun: None,
                is_shown: false,
                is_over: false,
            }),
            changed: Condvar::new(),
            coded: AtomicU64::new(0),
            written: AtomicU64::new(0),
            done: AtomicU64::new(0),
        }
    }

    /// Work begins, on the image of a file of so many bytes, if it is known how many.
    pub fn begin<R: Wait + Clock>(&self, rt: &R, work: Work, size: Option<u64>) {
        self.begin_on(rt, Subject::Image(work, size));
    }

    /// Work begins, on so many files.
    pub fn begin_files<R: Wait + Clock>(&self, rt: &R, files: u64) {
        self.begin_on(rt, Subject::Files(files));
    }

    /// Work begins.
    fn begin_on<R: Wait + Clock>(&self, rt: &R, subject: Subject) {
        let Ok(at) = Instant::now(rt) else {
            return;
        };
        self.coded.store(0, Ordering::SeqCst);
        self.written.store(0, Ordering::SeqCst);
        self.done.store(0, Ordering::SeqCst);
        let mut told = self.told.lock(rt);
        told.begun = Some(Begun { subject, at });
        drop(told);
        self.changed.notify_one();
    }

    /// One file more is done, of which this is written to standard output, in the place of the line
    /// that stands there.
    pub fn end_file<R: Wait + Print + Eprint, D: Display>(
        &self,
        rt: &R,
        text: &D,
    ) -> io::Result<()> {
        self.done.fetch_add(1, Ordering::SeqCst);
        let mut told = self.told.lock(rt);
        if told.is_shown {
            let _ = eprint!(rt; "\r{BLANK}\r");
            told.is_shown = false;
        }
        let printed = rt.print(text);
        drop(told);
        printed
    }

    /// Work has ended, and the line is taken away.
    pub fn end<R: Wait + Eprint>(&self, rt: &R) {
        let mut told = self.told.lock(rt);
        told.begun = None;
        if told.is_shown {
            let _ = eprint!(rt; "\r{BLANK}\r");
            told.is_shown = false;
        }
    }

    /// So many bytes were written.
    pub(crate) fn wrote(&self, count: usize) {
        self.written.fetch_add(count as u64, Ordering::SeqCst);
    }

    /// No more work comes.
    fn close<R: Wait>(&self, rt: &R) {
        let mut told = self.told.lock(rt);
        told.is_over = true;
        drop(told);
        self.changed.notify_one();
    }

    /// Tells how far work is, if it has gone on for a while. Whether a line stands there then.
    fn tell<R: Clock + Eprint>(&self, rt: &R, begun: Begun) -> bool {
        let Ok(passed) = begun.at.elapsed(rt) else {
            return false;
        };
        if passed < Duration::from_millis(FIRST) {
            return false;
        }
        let seconds = passed.as_secs();
        match begun.subject {
            Subject::Image(work, size) => self.tell_image(rt, work, size, seconds),
            Subject::Files(files) => self.tell_files(rt, files, seconds),
        }
        true
    }

    /// Tells how far work on an image is.
    fn tell_image<R: Eprint>(&self, rt: &R, work: Work, size: Option<u64>, seconds: u64) {
        let progress = Progress {
            work,
            size,
            seconds,
            coded: self.coded.load(Ordering::SeqCst),
            written: self.written.load(Ordering::SeqCst),
        };
        let _ = eprint!(rt; "\r{progress} ");
    }

    /// Tells how far work on files is.
    fn tell_files<R: Eprint>(&self, rt: &R, files: u64, seconds: u64) {
        let progress = FilesProgress {
            done: self.done.load(Ordering::SeqCst),
            files,
            seconds,
        };
        let _ = eprint!(rt; "\r{progress} ");
    }

    /// Waits for work, tells how far it is, and waits for a moment. Whether more may come.
    fn tell_once<R: Wait + Clock + Eprint>(&self, rt: &R) -> bool {
        let mut told = self
            .changed
            .wait_while(rt, self.told.lock(rt), |told| told.is_idle());
        if told.is_over {
            return false;
        }
        if let Some(begun) = told.begun {
            if self.tell(rt, begun) {
                told.is_shown = true;
            }
        }
        let (told, _) = self
            .changed
            .wait_timeout(rt, told, Duration::from_millis(PAUSE));
        drop(told);
        true
    }

    /// Tells how far work is until no more comes.
    fn tell_all<R: Wait + Clock + Eprint>(&self, rt: &R) {
        for _ in rt.forever() {
            if !self.tell_once(rt) {
                break;
            }
        }
    }
}

/// Who is told of work, if anybody is.
#[derive(Drop)]
pub struct Counted {
    telling: Option<Arc<Telling>>,
}

impl Counted {
    /// What is shared, if anything is told.
    pub fn telling(&self) -> Option<&Telling> {
        match &self.telling {
            Some(telling) => Some(&**telling),
            None => None,
        }
    }

    /// The same again. Without memory for it nobody is told.
    pub fn again(&self) -> Counted {
        Counted {
            telling: shared(&self.telling),
        }
    }
}

impl Gate for Counted {
    fn began(&self, _job: usize) {}

    fn ended(&self, _job: usize) {
        if let Some(telling) = self.telling() {
            telling.coded.fetch_add(1, Ordering::SeqCst);
        }
    }
}

/// The same, shared once more if it can be.
fn shared(telling: &Option<Arc<Telling>>) -> Option<Arc<Telling>> {
    match telling {
        Some(telling) => Arc::try_clone(telling).ok(),
        None => None,
    }
}

/// A thread that tells how far work is, and who is told of it.
#[derive(Drop)]
pub struct Teller {
    pub counted: Counted,
    thread: Option<JoinHandle<()>>,
}

impl Teller {
    /// Nothing is told.
    fn none() -> Teller {
        Teller {
            counted: Counted { telling: None },
            thread: None,
        }
    }

    /// Begins to tell on a terminal. Where there is no memory for it, or no thread can be started,
    /// nothing is told.
    pub fn start<R>(rt: &R, alloc: Global, is_terminal: bool) -> Teller
    where
        R: Threads + Wait + Clock + Eprint + Clone + Drop + Send + Sync + 'static,
    {
        if !is_terminal {
            return Teller::none();
        }
        let own: Result<R, _> = rt.clone();
        let (Ok(telling), Ok(own)) = (Arc::new(alloc, Telling::new()), own) else {
            return Teller::none();
        };
        let Ok(theirs) = Arc::try_clone(&telling) else {
            return Teller::none();
        };
        match thread::spawn(rt, move || theirs.tell_all(&own)) {
            Ok(thread) => Teller {
                counted: Counted {
                    telling: Some(telling),
                },
                thread: Some(thread),
            },
            Err(_) => Teller::none(),
        }
    }

    /// Ends it.
    pub fn end<R: Threads + Wait>(self, rt: &R) {
        let Teller { counted, thread } = self;
        if let Some(telling) = counted.telling() {
            telling.close(rt);
        }
        if let Some(thread) = thread {
            thread.join(rt);
        }
    }
}
