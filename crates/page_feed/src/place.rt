//! A place between stations and their page. It holds one text of each station, the newest one.

ghost use Rattle.std.specs.Prelude.{◌≡◌};
ghost use Rattle.page_feed.specs.Turns.{changed_from, first_new, is_new};

use cip_types::OutOfMemory;
use std::alloc::Global;
use std::mem;
use std::rt::Clock;
use std::sync::atomic::{AtomicU64, Ordering};
use std::sync::{Arc, Condvar, Mutex, Wait};
use std::time::Duration;

/// The newest text of each device, and how many of each were put in so far.
#[derive(Drop)]
struct Newest {
    texts: Vec<String>,
    numbers: Vec<u64>,
}

/// A place, and how many browsers look at it.
#[derive(Drop)]
struct FeedPlace {
    newest: Mutex<Newest>,
    /// The names of each device's points, slots and bits, as JSON; nothing of one that has told none.
    names: Mutex<Vec<String>>,
    more: Condvar,
    watchers: AtomicU64,
}

/// The end at which a station puts texts in. It never waits.
#[derive(Drop)]
pub struct FeedEnd {
    place: Arc<FeedPlace, Global>,
    device: usize,
}

/// The end at which a page takes texts out.
#[derive(Drop)]
pub struct PageEnd {
    alloc: Global,
    place: Arc<FeedPlace, Global>,
}

/// A place with no text of so many devices. The fault: an allocation was refused.
pub fn page_place(alloc: Global, devices: usize) -> Result<PageEnd, OutOfMemory> {
    let mut texts = Vec::new(alloc);
    let mut names = Vec::new(alloc);
    for _ in 0..devices {
        texts.push(String::new(alloc))?;
        names.push(String::new(alloc))?;
    }
    let place = FeedPlace {
        newest: Mutex::new(Newest {
            texts,
            numbers: vec![in alloc; 0; devices]?,
        }),
        names: Mutex::new(names),
        more: Condvar::new(),
        watchers: AtomicU64::new(0),
    };
    match Arc::new(alloc, place) {
        Ok(place) => Ok(PageEnd { alloc, place }),
        Err(_) => Err(OutOfMemory),
    }
}

impl FeedEnd {
    /// The same end, for another life of the device. OutOfMemory is the only fault.
    pub fn share(&self) -> Result<FeedEnd, OutOfMemory> {
        match Arc::try_clone(&self.place) {
            Ok(place) => Ok(FeedEnd {
                place,
                device: self.device,
            }),
            Err(_) => Err(OutOfMemory),
        }
    }

    /// Whether a browser looks at the page.
    pub fn is_watched(&self) -> bool {
        self.place.watchers.load(Ordering::SeqCst) > 0
    }

    /// Puts the names of the device in, unless the page has its hands in them. Answers whether they are in.
    pub fn offer_names(&self, text: &mut String) -> bool {
        let Some(mut names) = self.place.names.try_lock() else {
            return false;
        };
        if let Some(own) = names.get_mut(self.device) {
            mem::swap(own, text);
        }
        true
    }

    /// Puts a text in, in the place of the one before, unless the page has its hands in the place. Answers whether it is in.
    /// The text that was there is handed back, so that its memory is used again.
    pub fn offer(&self, text: &mut String) -> bool {
        let Some(mut newest) = self.place.newest.try_lock() else {
            return false;
        };
        let Some(own) = newest.texts.get_mut(self.device) else {
            return false;
        };
        mem::swap(own, text);
        if let Some(number) = newest.numbers.get_mut(self.device) {
            *number = number.wrapping_add(1);
        }
        drop(newest);
        self.place.more.notify_all();
        true
    }
}

/// The device whose text a page takes next: the first one with a new text, from this one on or else of all.
pub fn changed_from(numbers: &[u64], seen: &[u64], from: usize) -> Option<usize>
    ensures { result ≡ changed_from numbers.now seen.now from }
{
    match first_new(numbers, seen, from) {
        Some(device) => Some(device),
        None => first_new(numbers, seen, 0),
    }
}

/// The first device, from this one on, with a new text.
fn first_new(numbers: &[u64], seen: &[u64], from: usize) -> Option<usize>
    ensures { result ≡ first_new numbers.now seen.now from }
{
    for device in from..numbers.len() {
        if is_new(numbers, seen, device) {
            return Some(device);
        }
    }
    None
}

/// Whether a device has a new text: its number is not the one that was seen.
fn is_new(numbers: &[u64], seen: &[u64], device: usize) -> bool
    ensures { result ≡ is_new numbers.now seen.now device }
{
    match (numbers.get(device), seen.get(device)) {
        (Some(number), Some(seen)) => *number != *seen,
        (Some(_), None) => true,
        (None, _) => false,
    }
}

impl PageEnd {
    /// The same place, for another thread. OutOfMemory is the only fault.
    pub fn share(&self) -> Result<PageEnd, OutOfMemory> {
        match Arc::try_clone(&self.place) {
            Ok(place) => Ok(PageEnd {
                alloc: self.alloc,
                place,
            }),
            Err(_) => Err(OutOfMemory),
        }
    }

    /// The end at which the station of this number, from 0, puts texts in. OutOfMemory is the only fault.
    pub fn feed_end(&self, device: usize) -> Result<FeedEnd, OutOfMemory> {
        match Arc::try_clone(&self.place) {
            Ok(place) => Ok(FeedEnd { place, device }),
            Err(_) => Err(OutOfMemory),
        }
    }

    /// A browser begins to look.
    pub fn watch(&self) {
        self.place.watchers.fetch_add(1, Ordering::SeqCst);
    }

    /// A browser looks no more.
    pub fn leave(&self) {
        self.place.watchers.fetch_sub(1, Ordering::SeqCst);
    }

    /// The numbers of the newest texts, one for each device. OutOfMemory is the only fault.
    pub fn numbers<R: Wait>(&self, rt: &R) -> Result<Vec<u64>, OutOfMemory> {
        let newest = self.place.newest.lock(rt);
        Ok(Vec::from_slice(self.alloc, newest.numbers.as_slice())?)
    }

    /// Waits for a text behind those of these numbers, at most so many milliseconds. Answers its device: one from this one on,
    /// if there is one. None if no text came.
    pub fn wait_for<R: Wait + Clock>(
        &self,
        rt: &R,
        seen: &[u64],
        from: usize,
        most_ms: u64,
    ) -> Option<usize> {
        let newest = self.place.newest.lock(rt);
        let most = Duration::from_millis(most_ms);
        let (newest, _) = self
            .place
            .more
            .wait_timeout_while(rt, newest, most, |newest| {
                changed_from(newest.numbers.as_slice(), seen, 0).is_none()
            });
        changed_from(newest.numbers.as_slice(), seen, from)
    }

    /// Appends the names of a device, and answers whether it has any. OutOfMemory is the only fault.
    pub fn push_names<R: Wait>(
        &self,
        rt: &R,
        device: usize,
        out: &mut Vec<u8>,
    ) -> Result<bool, OutOfMemory> {
        let names = self.place.names.lock(rt);
        let Some(text) = names.get(device) else {
            return Ok(false);
        };
        out.extend_from_slice(text.as_bytes())?;
        Ok(!text.is_empty())
    }

    /// Appends the newest text of a device, and answers its number. OutOfMemory is the only fault.
    pub fn take<R: Wait>(
        &self,
        rt: &R,
        device: usize,
        out: &mut Vec<u8>,
    ) -> Result<u64, OutOfMemory> {
        let newest = self.place.newest.lock(rt);
        if let Some(text) = newest.texts.get(device) {
            out.extend_from_slice(text.as_bytes())?;
        }
        Ok(match newest.numbers.get(device) {
            Some(number) => *number,
            None => 0,
        })
    }
}
