//! The page of a station, which threads of its own serve. A station waits for none of them.

ghost use Rattle.std.specs.Prelude.{◌≡◌};
ghost use Rattle.page_server.specs.IdleThreads.{page_node};

use crate::idle_threads::{IdleThreads, Offered};
use crate::page::{Allowed, OwnNames, PageRefusal};
use crate::sent_answer::PAUSE_MS;
use crate::talk::{refuse_at_once, talk};
use cip_tables::Device;
use cip_types::{Node, OutOfMemory};
use page_feed::{FeedEnd, PageEnd, page_place};
use serde_json::Value;
use station_rim::SharedInput;
use std::alloc::Global;
use std::fs::File;
use std::net::{TcpListener, TcpStream};
use std::rt::{Clock, Files};
use std::sync::{Arc, Condvar, Mutex, Wait};
use std::thread::{self, Threads};
use std::time::Duration;

/// The address of this host alone: 127.0.0.1.
const THIS_HOST: Node = Node(0x7F00_0001);

/// So many threads serve browsers, one at a time each.
pub const PAGE_THREADS: usize = 8;

/// Where a page is served, and what it allows.
#[derive(Drop)]
pub struct PageSetting {
    pub listener: TcpListener,
    pub names: OwnNames,
    pub allowed: Allowed,
    /// What an event stream begins with.
    pub greeting: String,
    /// The name of the record's first file.
    pub record: Option<String>,
    /// Whether it is the page of a plant, whose calls have the name of a device in front.
    pub is_plant: bool,
}

/// The address at which a page is served: the one that was chosen, or else that of this host alone, 127.0.0.1.
pub fn page_node(chosen: Option<Node>) -> Node
    ensures { result ≡ page_node chosen }
{
    chosen.unwrap_or(THIS_HOST)
}

/// What an event stream begins with, as JSON: the name of the station or plant, what the page allows, and the devices of a
/// plant. OutOfMemory is the only fault.
pub fn greeting_text(
    alloc: Global,
    name: &str,
    allowed: Allowed,
    devices: &[&str],
) -> Result<String, OutOfMemory> {
    let name = quoted(alloc, name)?;
    let (name, writes, record) = (name.as_str(), allowed.writes, allowed.record);
    let mut text = format!(in alloc;
        "{{\"name\":{name},\"writes\":{writes},\"record\":{record},\"devices\":["
    )?;
    for (place, device) in devices.iter().enumerate() {
        if place > 0 {
            text.push_str(",")?;
        }
        text.push_str(quoted(alloc, device)?.as_str())?;
    }
    text.push_str("]}")?;
    Ok(text)
}

/// A name as JSON.
fn quoted(alloc: Global, name: &str) -> Result<String, OutOfMemory> {
    Ok(Value::String(format!(in alloc; "{name}")?).to_string(alloc)?)
}

/// What the threads of a page share.
#[derive(Drop)]
pub(crate) struct PageContext {
    pub(crate) alloc: Global,
    pub(crate) names: OwnNames,
    pub(crate) allowed: Allowed,
    pub(crate) greeting: String,
    pub(crate) record: Option<String>,
    pub(crate) is_plant: bool,
    /// Whether a file is being sent: at most one is.
    pub(crate) is_sending: Mutex<bool>,
    pub(crate) texts: PageEnd,
    pub(crate) input: SharedInput,
}

/// A context that several threads use.
type SharedContext = Arc<PageContext, Global>;

/// A browser that is to be served.
#[derive(Drop)]
struct Browser {
    context: SharedContext,
    stream: TcpStream,
}

/// The places where a page's threads find its setting, and the browsers.
#[derive(Drop)]
struct PageOpening {
    setting: Mutex<Option<PageSetting>>,
    more: Condvar,
    browsers: Mutex<IdleThreads<Browser>>,
    came: Condvar,
}

/// The page of a station, before and while it is served.
#[derive(Drop)]
pub struct SharedPage {
    alloc: Global,
    opening: Arc<PageOpening, Global>,
    texts: PageEnd,
}

impl SharedPage {
    /// A page of so many devices that is not served. OutOfMemory is the only fault.
    pub fn new(alloc: Global, devices: usize) -> Result<SharedPage, OutOfMemory> {
        let opening = PageOpening {
            setting: Mutex::new(None),
            more: Condvar::new(),
            browsers: Mutex::new(IdleThreads::new(alloc)),
            came: Condvar::new(),
        };
        let texts = page_place(alloc, devices)?;
        match Arc::new(alloc, opening) {
            Ok(opening) => Ok(SharedPage {
                alloc,
                opening,
                texts,
            }),
            Err(_) => Err(OutOfMemory),
        }
    }

    /// The same page, for another thread. OutOfMemory is the only fault.
    pub fn share(&self) -> Result<SharedPage, OutOfMemory> {
        let texts = self.texts.share()?;
        match Arc::try_clone(&self.opening) {
            Ok(opening) => Ok(SharedPage {
                alloc: self.alloc,
                opening,
                texts,
            }),
            Err(_) => Err(OutOfMemory),
        }
    }

    /// The end at which the station of this number, from 0, tells its page. OutOfMemory is the only fault.
    pub fn feed_end(&self, device: usize) -> Result<FeedEnd, OutOfMemory> {
        self.texts.feed_end(device)
    }

    /// Begins to serve.
    pub fn open<R: Wait>(&self, rt: &R, setting: PageSetting) {
        *self.opening.setting.lock(rt) = Some(setting);
        self.opening.more.notify_one();
    }

    /// Accepts browsers without end, once the page is open, for the threads that serve them. An extra browser is refused.
    pub fn accept<R: Wait + Clock>(&self, rt: &R, input: SharedInput) {
        let Some((listener, context)) = self.context(rt, input) else {
            return;
        };
        for _ in rt.forever() {
            match listener.accept() {
                Ok((stream, _)) => {
                    if let Some(stream) = self.hand(rt, &context, stream) {
                        refuse_at_once(stream, PageRefusal::Busy);
                    }
                }
                // (as where too many files are open)
                Err(_) => thread::sleep(rt, Duration::from_millis(10)),
            }
            // (browsers that come in crowds get no more of the processor than this)
            thread::sleep(rt, Duration::from_millis(PAUSE_MS));
        }
    }

    /// Serves browsers without end, one at a time. A device of kind D fills the sums of a record that is sent as a capture file.
    pub fn serve<R, D>(&self, rt: &R)
    where
        R: Wait + Clock + AllocGlobal + Files<File = File>,
        D: Device + Drop,
    {
        for _ in rt.forever() {
            if let Some(browser) = self.next_browser(rt) {
                talk::<R, D>(rt, &browser.context, browser.stream);
            }
        }
    }

    /// Waits for the setting of the page: its listener, and what its threads share. None without memory.
    fn context<R: Wait>(&self, rt: &R, input: SharedInput) -> Option<(TcpListener, SharedContext)> {
        let setting = self.setting(rt)?;
        let context = PageContext {
            alloc: self.alloc,
            names: setting.names,
            allowed: setting.allowed,
            greeting: setting.greeting,
            record: setting.record,
            is_plant: setting.is_plant,
            is_sending: Mutex::new(false),
            texts: self.texts.share().ok()?,
            input,
        };
        let context = Arc::new(self.alloc, context).ok()?;
        Some((setting.listener, context))
    }

    /// Hands a browser to a thread that waits for one. Gives it back if none does.
    fn hand<R: Wait>(
        &self,
        rt: &R,
        context: &SharedContext,
        stream: TcpStream,
    ) -> Option<TcpStream> {
        let Ok(context) = Arc::try_clone(context) else {
            return Some(stream);
        };
        let offered = self
            .opening
            .browsers
            .lock(rt)
            .offer(Browser { context, stream });
        match offered {
            Offered::Taken => {
                self.opening.came.notify_one();
                None
            }
            Offered::Full(browser) | Offered::OutOfMemory(browser) => Some(stream_of(browser)),
        }
    }

    /// Waits for a browser.
    fn next_browser<R: Wait>(&self, rt: &R) -> Option<Browser> {
        let mut browsers = self.opening.browsers.lock(rt);
        browsers.begin_wait();
        let mut browsers = self
            .opening
            .came
            .wait_while(rt, browsers, |browsers| browsers.is_empty());
        browsers.call()
    }

    /// Waits for the setting of the page.
    fn setting<R: Wait>(&self, rt: &R) -> Option<PageSetting> {
        let setting = self.opening.setting.lock(rt);
        let mut setting = self
            .opening
            .more
            .wait_while(rt, setting, |setting| setting.is_none());
        setting.take()
    }
}

/// The stream of a browser that is not served.
fn stream_of(browser: Browser) -> TcpStream {
    let Browser { context: _, stream } = browser;
    stream
}

/// Begins the thread that accepts the browsers of a station's page, whose calls go to this input. Whether it could begin.
pub fn begin_page<R>(rt: R, page: &SharedPage, input: &SharedInput) -> bool
where
    R: Threads + Wait + Clock + Copy + Send + Drop + 'static,
{
    match (page.share(), input.share()) {
        (Ok(page), Ok(input)) => thread::spawn(&rt, move || page.accept(&rt, input)).is_ok(),
        _ => false,
    }
}
