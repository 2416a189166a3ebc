//! The page, in one text: its markup, its style and what it reckons of snapshots, up to its word. Nothing of it comes from elsewhere.

/// The page up to its word, which its script shows with each request. The first script has the functions that touch no element.
pub const PAGE_FRONT: &str = "\
<!doctype html>
<html lang='en'>
<head>
<meta charset='utf-8'>
<meta name='viewport' content='width=device-width, initial-scale=1'>
<meta name='color-scheme' content='light dark'>
<link rel='icon' href='data:,'>
<title>station</title>
<style>
:root { color-scheme: light dark; --ink: #1c2430; --dim: #5d6775; --line: #d9dee5; --ground: #f4f6f9; --card: #fff; --head: #1c2430;
  --good: #1a7f4b; --warn: #a65f00; --bad: #c22f2f; --blue: #2563c9; --none: #66707e; --hover: #dfe4ea; }
@media (prefers-color-scheme: dark) {
  :root { --ink: #dde3ea; --dim: #97a2b0; --line: #333c48; --ground: #12161c; --card: #1b212a; --head: #0a0d11;
    --good: #1f8a54; --warn: #b06a0a; --bad: #cf4040; --blue: #3b78dd; --none: #56606d; --hover: #37414e; }
}
/* what is not of the present has no colour */
.stale { --good: #7d8288; --warn: #7d8288; --bad: #7d8288; --blue: #7d8288; --none: #7d8288; --ink: #80858b; --dim: #80858b; }
.stale canvas, .stale .key { filter: grayscale(1); opacity: 0.5; }
* { box-sizing: border-box; }
[hidden] { display: none !important; }
:focus-visible { outline: 2px solid var(--blue); outline-offset: 1px; }
body { margin: 0; background: var(--ground); color: var(--ink); font: 14px/1.45 system-ui, sans-serif; }
header { display: flex; flex-wrap: wrap; gap: 4px 16px; align-items: baseline; padding: 12px 20px; background: var(--head); color: #fff; }
header h1 { font-size: 17px; margin: 0; overflow-wrap: anywhere; }
header a { color: #cfe0ff; }
header .right { margin-left: auto; }
#bar { position: sticky; top: 0; z-index: 1; padding: 8px 20px; background: #9c1c1c; color: #fff; font-weight: 600; }
main { display: grid; grid-template-columns: repeat(auto-fit, minmax(min(420px, 100%), 1fr)); gap: 14px; padding: 14px 20px; }
section { background: var(--card); color: var(--ink); border: 1px solid var(--line); border-radius: 8px; padding: 12px 14px; min-width: 0; }
section.wide { grid-column: 1 / -1; }
h2 { font-size: 13px; margin: 0 0 8px; color: var(--dim); font-weight: 600; }
table { border-collapse: collapse; width: 100%; }
th { text-align: left; font-weight: 500; color: var(--dim); font-size: 12px; }
th, td { padding: 4px 14px 4px 0; border-bottom: 1px solid var(--line); vertical-align: top; }
tr:last-child td { border-bottom: 0; }
tr.stale td, tr.past td { color: var(--dim); }
code, .bytes { font: 12.5px/1.5 ui-monospace, monospace; }
/* sixteen bytes are a line, four are never parted */
.line { display: block; white-space: nowrap; }
.four { display: inline-block; white-space: nowrap; margin-right: 7px; }
.bytes button, .fold { all: unset; cursor: pointer; padding: 0 2px; border-radius: 3px; }
.bytes button:hover, .fold:hover { background: var(--hover); }
.bytes button:focus-visible, .fold:focus-visible { outline: 2px solid var(--blue); }
.bytes button.chosen { background: var(--blue); color: #fff; }
.fold { color: var(--dim); padding: 3px 8px; margin-top: 6px; border: 1px solid var(--line); }
.tools { margin-left: 10px; font-weight: 400; }
.tools .fold { padding: 1px 8px; margin: 0; }
#troubles { max-height: 124px; }
.bits { display: inline-block; width: max-content; max-width: 36ch; color: var(--dim); font-size: 11.5px; }
.names { display: flex; flex-wrap: wrap; gap: 2px; max-width: 40ch; }
.names .badge { white-space: normal; overflow-wrap: anywhere; }
.badge { display: inline-block; padding: 0 8px; margin-right: 2px; border-radius: 9px; color: #fff; background: var(--none); font-size: 12px;
  white-space: nowrap; }
.good { background: var(--good); } .warn { background: var(--warn); } .bad { background: var(--bad); } .wait { background: var(--blue); }
canvas { width: 100%; height: 210px; display: block; }
.key span { margin-right: 16px; font-size: 12px; color: var(--dim); }
.key i { display: inline-block; width: 18px; height: 3px; margin-right: 5px; vertical-align: middle; }
ol { list-style: none; margin: 0; padding: 0; max-height: 320px; overflow-y: auto; }
li { border-bottom: 1px solid var(--line); padding: 3px 0; font: 12px/1.5 ui-monospace, monospace;
  white-space: pre-wrap; overflow-wrap: anywhere; }
li b { color: var(--dim); font-weight: 400; }
.none { color: var(--dim); }
form { display: flex; flex-wrap: wrap; gap: 8px; align-items: center; margin: 4px 0; }
input, select, form button { font: inherit; padding: 3px 8px; border: 1px solid var(--line); border-radius: 5px; max-width: 100%;
  background: var(--card); color: var(--ink); }
form button { background: var(--blue); color: #fff; border: 0; cursor: pointer; }
@media (max-width: 700px) {
  header, #bar { padding: 8px 10px; }
  main { padding: 8px; gap: 8px; }
  section { padding: 10px; }
  table, tbody, tr { display: block; }
  tr.heads { display: none; }
  tr { border-bottom: 1px solid var(--line); padding: 4px 0; }
  tr:last-child { border-bottom: 0; }
  td { display: flex; gap: 8px; align-items: baseline; border: 0; padding: 1px 0; overflow-wrap: anywhere; }
  .bits { display: block; }
  td:empty { display: none; }
  td::before { content: attr(data-head); flex: 0 0 84px; color: var(--dim); font-size: 12px; overflow-wrap: normal; }
  td > * { min-width: 0; }
  .line { white-space: normal; }
}
</style>
</head>
<body>
<header>
  <h1 id='title'>station</h1><select id='device' aria-label='device' hidden></select><span id='contact' class='badge'>no contact yet</span>
  <span id='own-mode' class='badge' title='the mode of the scanner' hidden></span>
  <span id='clock'></span>
  <span class='right' id='files'></span>
</header>
<div id='bar' role='alert' hidden></div>
<main id='main'>
  <section class='wide' id='plant' hidden><h2>Devices</h2><div id='devices'></div></section>
  <section class='wide of'><h2>What went wrong</h2><ol id='troubles'></ol></section>
  <section class='wide of'><h2>Points</h2><div id='points'></div></section>
  <section class='wide of' id='rows'><h2 id='rows-title'>Connections</h2><div id='connections'></div>
    <button class='fold' id='fold' aria-expanded='false' aria-controls='earlier' hidden></button><div id='earlier' hidden></div></section>
  <section class='wide of'><h2>Datagrams, gaps between them, and time-outs
    <span class='tools'><button class='fold' id='save' title='what was counted of each'>save as a table</button></span></h2><div id='gaps'></div></section>
  <section class='wide of'><h2>The last three minutes <span class='tools'><button class='fold' id='freeze' aria-pressed='false'>freeze</button>
    <button class='fold' id='export' title='the numbers of the lines below, with their times'>save as a table</button></span></h2><canvas id='chart' role='img' aria-label='datagrams a second, and chosen bytes'></canvas>
    <div class='key' id='key'></div></section>
  <section class='of'><h2>Totals</h2><div id='totals'></div></section>
  <section id='writes' hidden><h2>Calls</h2>
    <form data-call='write'><label>point <select id='write-point'></select></label>
      <input id='write-bytes' aria-label='bytes' placeholder='bytes, as 0a0b0c0d' size='24'><button>write</button></form>
    <form data-call='mode'><label>mode <select id='mode'><option>run</option><option>idle</option></select></label>
      <button>set</button></form>
    <form data-call='slot'><label>slot <select id='slot'></select></label>
      <select id='slot-call' aria-label='call'><option>start</option><option>stop</option></select><button>call</button></form>
    <div id='said' class='none'></div></section>
  <section class='wide of'><h2>The last events <span class='tools'><select id='event-kind' aria-label='which events'></select>
    <input id='event-text' aria-label='a text of the events' placeholder='with this text' size='16'></span></h2><ol id='events'></ol></section>
</main>
<script>
'use strict';
// WHAT THE PAGE RECKONS OF SNAPSHOTS: no element is touched here
const KEPT_MS = 180000, STALE_MS = 1500, SILENT_MS = 5000, RATE_MS = 190, TICK_MS = 250, LINE_BYTES = 16;
const WINDOW_MS = 10000, KEPT_TROUBLES = 200, KEPT_EVENTS = 400, LF = String.fromCharCode(10);

function freshView() {
  return { samples: [], last: null, known: new Map(), heard: 0, late: 0, quickest: [], isCut: false, isUnfolded: false, lives: 0,
    silence: 0,
    newest: undefined, newestTrouble: undefined, lastTrouble: null, seen: new Set(), troubles: new Map(), losses: new Map(), since: new Map(), names: {} };
}

// TIME OF DAY

// (the parts of a date are cheap, and its text is not)
function clockOf(ms) {
  const it = new Date(ms);
  return [it.getHours(), it.getMinutes(), it.getSeconds()].map((part) => String(part).padStart(2, '0')).join(':');
}

// the wall's time of a time of the device
function wallOf(snapshot, ms) { return (snapshot.wall_ms ?? Date.now()) - (snapshot.ms - ms); }

function spanOf(ms) { return ms < 10000 ? `${Math.round(ms)} ms` : `${Math.round(ms / 1000)} s`; }

// NAMES OF POINTS, SLOTS AND BITS

// a point's number, or a slot's, and its name behind it
function pointName(view, point) {
  const name = view?.names[point];
  return name === undefined ? String(point) : `${point} (${name})`;
}

function slotName(view, slot) {
  const name = view.names[`slot ${slot}`];
  return name === undefined ? String(slot) : `${slot} (${name})`;
}

// the named bits of a point with their values, of the byte of the lowest number on
function namedBits(view, point, bytes) {
  const found = [];
  for (const [key, name] of Object.entries(view.names)) {
    const [own, byte, bit] = key.split('.').map(Number), value = parseInt(bytes.slice(2 * byte, 2 * byte + 2), 16);
    if (bit !== undefined && own === point && !Number.isNaN(value)) found.push({ place: 8 * byte + bit, name, isSet: Boolean(value >> bit & 1) });
  }
  return found.sort((a, b) => a.place - b.place);
}

// CONNECTIONS OF THE PRESENT

const pairOf = (row) => `${row.peer} ${row.consumed} ${row.produced}`;

// The connections of the present: the established ones, and of each peer and its points the newest that is lost, if none has followed
// it. All others are earlier ones. The newest connection is the last one.
function sorted(connections) {
  const followed = new Set(connections.filter((it) => it.established).map(pairOf)), lost = new Set();
  for (const it of [...connections].reverse()) {
    if (it.established || followed.has(pairOf(it))) continue;
    followed.add(pairOf(it));
    lost.add(it);
  }
  const isPresent = (it) => it.established || lost.has(it);
  return { present: connections.filter(isPresent), earlier: connections.filter((it) => !isPresent(it)), lost: lost.size };
}

// each connection with a key: its peer, kind and points, and how many such ones are before it
function keyed(connections) {
  const counts = new Map();
  return connections.map((it) => {
    const name = `${it.kind} ${pairOf(it)}`, count = counts.get(name) ?? 0;
    counts.set(name, count + 1);
    return [`${name} ${count}`, it];
  });
}

// each slot, or each connection of the present, with its key and the words for it
function rowsOf(view, snapshot) {
  if (snapshot.slots) return snapshot.slots.map((it) => [`slot ${it.slot}`, it, `slot ${slotName(view, it.slot)}`]);
  return keyed(sorted(snapshot.connections).present)
    .map(([key, it]) => [key, it, `${it.peer}, points ${pointName(view, it.consumed)} and ${pointName(view, it.produced)}`]);
}

// the rows whose datagrams are counted; without counts of their own all together
function countedRows(view, snapshot) {
  const rows = rowsOf(view, snapshot);
  return rows.every(([, it]) => it.lost === undefined) ? [['all', snapshot.counts, 'its connections']] : rows;
}

// what a connection is at present
function modeOf(row) {
  if (!row.established) return ['lost', 'bad'];
  if (row.mode === 'run') return ['run', 'good'];
  if (row.mode === 'idle') return ['idle', 'warn'];
  return row.has_data ? ['open', 'good'] : ['waiting', 'wait'];
}

// What a slot is at present. One that nobody stopped, and that is not open, is no calm one.
function slotState(it) {
  if (it.state === 'established') return it.has_data ? ['established', 'good'] : ['waiting', 'wait'];
  if (it.state === 'timed_out') return ['timed out', 'bad'];
  if (it.state === 'idle') return it.wait && it.wait !== 'stopped' ? ['not open', 'bad'] : [it.wait ?? 'idle', ''];
  return [it.state, 'warn'];
}

// WHAT WENT WRONG

const BAD = /timed out|dropped, a|not opened|none is left|ended with its stream|is not answered|requests a reset/;

// Adds what the page itself saw, unless that of the key was seen. What comes again is one line: how often, and when last.
// What stands at a place of its own has its newest words alone. The newest one is the last.
function addTrouble(view, key, wall, words, place) {
  if (view.seen.has(key)) return;
  view.seen.add(key);
  if (view.seen.size > 2 * KEPT_TROUBLES) view.seen.delete(view.seen.values().next().value);
  const at = place ?? words, own = view.troubles.get(at) ?? { first: wall, count: 0 };
  putTrouble(view, at, Object.assign(own, { wall, words, count: place ? 1 : own.count + 1 }));
}

function putTrouble(view, at, own) {
  view.troubles.delete(at);
  view.troubles.set(at, own);
  view.lastTrouble = own;
  if (view.troubles.size > KEPT_TROUBLES) view.troubles.delete(view.troubles.keys().next().value);
}

function troubleWords(it) { return it.count > 1 ? `${it.words} (${it.count} times since ${clockOf(it.first)})` : it.words; }

// A trouble of the station, which counts how often it came. Each life of a device counts anew. The time of day is that of when the
// page saw it first, so a clock that jumps moves none.
function keepTrouble(view, snapshot, it) {
  const words = it.words.trim().replace(/^eip_station: /, ''), { number, ms } = it;
  const own = view.troubles.get(words) ?? { first: wallOf(snapshot, it.first_ms), count: 0, earlier: 0, life: view.lives };
  if (own.life === view.lives && own.number === number && own.ms === ms) return;
  if (own.life !== view.lives) Object.assign(own, { earlier: own.count, life: view.lives });
  putTrouble(view, words, Object.assign(own, { number, ms, wall: wallOf(snapshot, ms), words, count: own.earlier + it.count }));
}

// The troubles of a snapshot, and what is seen from the one before to it: numbers that were lost.
function keepTroubles(view, snapshot, before) {
  for (const it of snapshot.troubles) keepTrouble(view, snapshot, it);
  if (!before) return;
  const known = new Map(countedRows(view, before).map(([key, it]) => [key, it]));
  for (const [key, it, name] of countedRows(view, snapshot)) {
    const old = known.get(key), more = old && it.received >= old.received ? it.lost - old.lost : 0;
    if (!(more > 0)) continue;
    const place = `${view.lives} lost ${key} ${Math.floor(snapshot.ms / WINDOW_MS)}`, count = (view.losses.get(place) ?? 0) + more;
    view.losses = new Map([...view.losses].slice(-100)).set(place, count);
    addTrouble(view, `${place} ${count}`, wallOf(snapshot, snapshot.ms), `${count} sequence ${count === 1 ? 'number' : 'numbers'} of ${name} lost`, place);
  }
}

// A device is heard of again behind a silence, or has started again.
function noteReturn(view, snapshot, isAnew) {
  if (isAnew) {
    addTrouble(view, `${view.lives} start`, wallOf(snapshot, snapshot.ms), 'the device has started again');
  } else if (view.silence && view.late < STALE_MS) {
    addTrouble(view, `${view.lives} silent ${snapshot.ms}`, wallOf(snapshot, snapshot.ms), `no contact for ${spanOf(view.silence)}`);
  }
  if (view.late < STALE_MS) view.silence = 0;
}

// TIME-OUTS

// Notes how often each row was seen to time out, and when last.
function noteTimeOuts(view, snapshot, before) {
  const held = new Map();
  for (const [key, it] of rowsOf(view, snapshot)) {
    const own = view.since.get(key) ?? { timeOuts: 0 }, isLost = before && own.isUp && it.established === false;
    held.set(key, { ...own, isUp: it.established, ...(isLost ? { timeOuts: own.timeOuts + 1, last: wallOf(snapshot, it.last_time_out_ms ?? snapshot.ms) } : {}) });
  }
  view.since = held;
}

function sinceOf(it, snapshot) { return it.since_ms === undefined ? '' : clockOf(wallOf(snapshot, it.since_ms)); }

// GAPS

// mean, longest and jitter of gaps in milliseconds; the silence of the present may be the longest one
function gapWords(sums, silence) {
  const tenth = (ms) => String(Math.round(10 * ms) / 10), longest = Math.max(sums.greatest_ms, silence);
  if (!sums.count) return longest ? `longest silence ${longest}` : '';
  return `mean ${tenth(sums.sum_ms / sums.count)}, longest ${longest}, jitter ${tenth(sums.moved_ms / sums.count)}`;
}

// the gaps of the last minute, and those since the connection opened
function gapsOf(it) {
  const silence = it.established ?? it.state === 'established' ? it.age_ms : 0;
  return it.gaps ? [gapWords(it.gaps.minute, silence), gapWords(it.gaps, silence)] : ['', ''];
}

// EVENTS, CHOSEN

const EVENT_KINDS = {
  'all': () => true,
  'troubles': (words) => BAD.test(words),
  'openings and ends': (words) => /opened|closed|timed out|dropped|slot [0-9]+ is/.test(words),
  'calls': (words) => /^the application/.test(words),
  'all but calls': (words) => !/^the application/.test(words),
};

function isChosen(event, kind, text) {
  return EVENT_KINDS[kind](event.words) && event.words.toLowerCase().includes(text.toLowerCase());
}

// NUMBERS AS A FILE

// the samples of a chart, a line each, with the time of day and what each line of the chart has
function tableOf(samples, wallOfSample, lines) {
  const head = ['time', 'ms', ...lines.map(([name]) => name)];
  const rows = samples.map((it) => [new Date(wallOfSample(it)).toISOString(), it.ms, ...lines.map(([, value]) => value(it) ?? '')]);
  return [head, ...rows].map((row) => row.join(',')).join(LF) + LF;
}

const NUMBER_HEADS = ['event', 'ms', 'connection', 'peer', 'sent', 'received', 'lost', 'jitter_ms', 'longest_ms', 'time_outs'];

// what was counted of each connection or slot, with its key in place of an id
function numbersOf(view, snapshot) {
  const rows = rowsOf(view, snapshot).filter(([, it]) => it.gaps).map(([key, it]) => {
    const { count, moved_ms, greatest_ms } = it.gaps, jitter = count ? Math.floor(10 * moved_ms / count) / 10 : 0;
    return [snapshot.number, snapshot.ms, key, it.peer ?? it.target, it.sent, it.received, it.lost, jitter.toFixed(1), greatest_ms, it.time_outs];
  });
  return [NUMBER_HEADS, ...rows].map((row) => row.join(',')).join(LF) + LF;
}
</script>
<script>
'use strict';
const word = '";
