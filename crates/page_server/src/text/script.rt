//! The script of the page, in one text, from behind the page's word to its end.

/// The page behind its word. The script reads the event stream of its own station, and shows what each snapshot says: in the
/// elements that are there, so that a click, a selection and the focus stay where they are.
pub const PAGE_REST: &str = "\
';
const COLOURS = ['#3b78dd', '#1f8a54', '#cf4040', '#9a55d3', '#b87410', '#1b9a9c', '#cf4a8c', '#7b8592'];
const token = location.hash.slice(1);
const byId = (id) => document.getElementById(id);
const chosen = new Set();  // the bytes of the chart, as `150:0`, and `output 2:0` of what slot 2 sends
const opened = Date.now(), openedAt = performance.now();
let station = { writes: false, record: false, name: 'station', devices: [] };
let shown = 0, marks = 0;
let frozen = null;  // the samples of a chart that is held, and their end
// what is known of each device: one of a station
const views = new Map();

function viewOf(device) {
  if (!views.has(device)) views.set(device, freshView());
  return views.get(device);
}

// TIME

// the milliseconds since a device was as it is shown: since its last snapshot came, and how late that one was
function ageOf(view) { return view.last ? performance.now() - view.heard + view.late : performance.now() - openedAt; }

function isStale(view) { return ageOf(view) > STALE_MS; }

function since(view) { return `no contact since ${clockOf(view.last ? view.last.wall_ms ?? view.receivedWall : opened)}`; }

// A snapshot is late by as much as it is further behind its clock than the quickest one. It has two clocks, and the one by which it is
// less late counts: so a clock that jumps makes nothing late.
function latenessOf(view, snapshot, before) {
  const behind = [performance.now() - snapshot.ms];
  if (snapshot.wall_ms !== undefined) behind.push(Date.now() - snapshot.wall_ms);
  const drift = before ? (snapshot.ms - before.ms) / 10000 : Infinity;
  view.quickest = behind.map((ms, at) => Math.min(ms, (view.quickest[at] ?? ms) + drift));
  return Math.min(...behind.map((ms, at) => ms - view.quickest[at]));
}

// ELEMENTS, CHANGED IN PLACE

function element(name, text, kind) {
  const made = document.createElement(name);
  if (text !== undefined) made.textContent = text;
  if (kind) made.className = kind;
  return made;
}

// (a selection is asked for only while there is one, since each answer has the whole page laid out)
let isSelected = false;
document.onselectionchange = () => { isSelected = !getSelection().isCollapsed; };

// Puts a text into an element. A selection that ends in it stays, as far as the text reaches.
function put(node, text) {
  const reported = String(text), own = node.firstChild;
  if (!own) {
    if (reported) node.append(reported);
    return;
  }
  if (own.data === reported) return;
  if (!isSelected) {
    own.data = reported;
    return;
  }
  const selection = getSelection(), { anchorNode, anchorOffset, focusNode, focusOffset } = selection;
  own.data = reported;
  if (anchorNode !== own && focusNode !== own) return;
  const within = (place, at) => place === own ? Math.min(at, reported.length) : at;
  selection.setBaseAndExtent(anchorNode, within(anchorNode, anchorOffset), focusNode, within(focusNode, focusOffset));
}

function dress(node, text, kind) {
  put(node, text);
  if (node.className !== kind) node.className = kind;
}

// Gives a parent the children of these keys, in this order. A child that stays is the same element.
function keep(parent, keys, make, fill) {
  const requested = new Set(keys);
  for (const child of [...parent.children]) if (!requested.has(child.dataset.key)) child.remove();
  const held = new Map([...parent.children].map((it) => [it.dataset.key, it]));
  keys.forEach((key, at) => {
    const child = held.get(key) ?? make();
    child.dataset.key = key;
    if (parent.children[at] !== child) parent.insertBefore(child, parent.children[at] ?? null);
    fill(child, at);
  });
}

function tableIn(place, heads) {
  if (!place.firstChild) {
    const table = place.appendChild(element('table'));
    const row = table.createTHead().insertRow();
    row.className = 'heads';
    for (const text of heads) row.appendChild(element('th', text));
    table.createTBody();
  }
  return place.firstChild.tBodies[0];
}

// A cell is a text, or a function that fills its element.
function fillRow(row, heads, { cells, kind = '' }) {
  if (row.className !== kind) row.className = kind;
  cells.forEach((value, at) => {
    const cell = row.cells[at] ?? row.insertCell();
    cell.dataset.head = heads[at];
    if (typeof value === 'function') value(cell); else put(cell, value);
  });
}

function fillTable(place, heads, rows) {
  keep(tableIn(place, heads), rows.map((it) => it.key), () => element('tr'), (row, at) => fillRow(row, heads, rows[at]));
}

// a cell of badges, each a text with its colour, and a text behind them
const said = (badges, text = '') => (cell) => {
  const place = cell.firstChild ?? cell.appendChild(element('span'));
  while (place.children.length <= badges.length) place.append(element('span'));
  while (place.children.length > badges.length + 1) place.lastChild.remove();
  badges.forEach(([words, kind], at) => dress(place.children[at], words, `badge ${kind}`));
  dress(place.lastChild, badges.length && text ? ` ${text}` : text, '');
};

const coded = (text, kind = '') => (cell) => {
  if (!cell.firstChild) cell.append(element('code'));
  dress(cell.firstChild, text, kind);
};

// VALUES

function bytesOf(text) {
  const found = [];
  for (let at = 0; text !== '-' && at < text.length; at += 2) found.push(parseInt(text.slice(at, at + 2), 16));
  return found;
}

// a cell of bytes, each a button
const hexOf = (text, name) => (cell) => {
  const hex = text === '-' ? '' : text, isMarked = cell.point === name && cell.marks === marks;
  if (isMarked && cell.hex === hex) return;
  const isBuilt = cell.firstChild && cell.hex.length === hex.length;
  if (!isBuilt) cell.replaceChildren(linesOf(hex.length / 2));
  Object.assign(cell, { hex, point: name, marks });
  cell.querySelectorAll('button').forEach((one, at) => {
    put(one, hex.slice(2 * at, 2 * at + 2));
    if (!(isBuilt && isMarked)) mark(one, `${name}:${at}`);
  });
};

function mark(one, key) {
  one.dataset.byte = key;
  one.className = chosen.has(key) ? 'chosen' : '';
  one.setAttribute('aria-pressed', String(chosen.has(key)));
}

function linesOf(count) {
  const made = element('span', undefined, 'bytes');
  let line, four;
  for (let at = 0; at < count; at += 1) {
    if (at % LINE_BYTES === 0) line = made.appendChild(element('span', undefined, 'line'));
    if (at % 4 === 0) four = line.appendChild(element('span', undefined, 'four'));
    four.append(element('button'));
  }
  return made;
}

// the bits of the first bytes, and each bit that has a name
const bitsOf = (bytes, named) => (cell) => {
  const bits = bytes.slice(0, 16).map((byte) => byte.toString(2).padStart(8, '0')).join(' ');
  const place = cell.firstChild ?? cell.appendChild(element('span'));
  if (!place.firstChild) place.append(element('code'), element('span'));
  dress(place.firstChild, bytes.length > 16 ? `${bits} ..` : bits, 'bits');
  place.lastChild.className = 'names';
  keep(place.lastChild, named.map((it) => String(it.place)), () => element('span'), (badge, at) => {
    dress(badge, `${named[at].name} ${named[at].isSet ? 1 : 0}`, named[at].isSet ? 'badge good' : 'badge');
  });
};

function numbersOf(bytes) {
  const view = new DataView(new Uint8Array(bytes).buffer), words = [];
  for (let at = 0; at + 2 <= bytes.length && at < 16; at += 2) words.push(view.getUint16(at, true));
  return coded(bytes.length < 2 ? bytes.join(' ') : words.join(' '));
}

// the age of a row's data, so many milliseconds after its snapshot
function dataAge(row, more) {
  const ms = Math.round(row.age_ms + more);
  const age = ms < 10000 ? `${ms} ms` : `${Math.round(ms / 1000)} s`;
  return row.has_data ? age : `no data for ${age}`;
}

// NAMES

const atNode = new Map();  // the device of a plant at an address

// an address, with the name of the plant's device there
function named(address) {
  const name = station.devices[atNode.get(address)];
  return name === undefined ? address : `${address} (${name})`;
}

// the name of each slot behind its number, where the words do not have it
function withSlots(view, words) { return words.replace(/slot ([0-9]+)(?![0-9]| [(])/g, (it, slot) => `slot ${slotName(view, slot)}`); }

function withNames(words) { return station.devices.length ? words.replace(/[0-9]+[.][0-9]+[.][0-9]+[.][0-9]+/g, (it) => named(it)) : words; }

// PARTS OF THE PAGE

function ownerOf(output, snapshot, more) {
  if (output.owner) return said([modeOf(output.owner)], `${named(output.owner.peer)}, ${dataAge(output.owner, more)}`);
  const lost = snapshot.connections.findLast((it) => it.kind === 'exclusive' && it.consumed === output.point);
  return lost ? said([['lost', 'bad']], named(lost.peer)) : said([['no owner', '']]);
}

function pointRow(kind, point, shownAs, bytes, says, named = [], name = point) {
  const values = bytesOf(bytes.slice(0, 34));  // (of a long point the first ones are shown as bits and numbers)
  return { key: `${kind} ${point}`, cells: [kind, shownAs, hexOf(bytes, name), bitsOf(values, named), numbersOf(values), says] };
}

// what is known of the device of a plant at an address
function viewAt(address) { return atNode.has(address) ? viewOf(atNode.get(address)) : undefined; }

// the bits of a slot are those of the point of its target, if that is a device of the plant
function bitsOfTarget(it, point, bytes) { return viewAt(it.target) ? namedBits(viewAt(it.target), point, bytes) : []; }

// the name of what a slot sends, beside that of its image
function outputOf(it) { return `output ${it.slot}`; }

function consumersOf(input) {
  return said([], `${input.exclusive_owners} exclusive, ${input.input_only} input only, ${input.listen_only} listen only`);
}

const POINT_HEADS = ['', 'point', 'bytes', 'bits', 'numbers of 16 bits', 'owner, consumers, target'];

function renderPoints(view, snapshot, more) {
  const rows = [], own = (kind, it, says) => rows.push(pointRow(kind, it.point, pointName(view, it.point), it.bytes, says, namedBits(view, it.point, it.bytes)));
  for (const it of snapshot.outputs ?? []) own('output', it, ownerOf(it, snapshot, more));
  for (const it of snapshot.inputs ?? []) own('input', it, consumersOf(it));
  for (const it of snapshot.slots ?? []) {
    const name = slotName(view, it.slot);
    rows.push(pointRow('image', it.slot, name, it.bytes, said([], `from ${named(it.target)}`), bitsOfTarget(it, it.produced, it.bytes)));
    if (it.output === '-') continue;
    rows.push(pointRow('output', it.slot, name, it.output, said([], `to ${named(it.target)}`), bitsOfTarget(it, it.consumed, it.output), outputOf(it)));
  }
  fillTable(byId('points'), POINT_HEADS, rows);
}

const SLOT_HEADS = ['slot', 'target', 'kind', 'consumes', 'produces', 'state', 'since', 'intervals', 'age of its data'];
const CONNECTION_HEADS = ['peer', 'kind', 'consumes', 'produces', 'state', 'since', 'intervals', 'age of its data'];

function slotRow(view, it, snapshot, more) {
  const isUp = it.state === 'established', key = `slot ${it.slot}`, target = viewAt(it.target);
  return { key, cells: [slotName(view, it.slot), named(it.target), it.kind, pointName(target, it.consumed), pointName(target, it.produced),
    said([slotState(it)], withNames(it.why ?? '')), sinceOf(it, snapshot),
    isUp ? `${it.o_t_ms} ms out, ${it.t_o_ms} ms in` : '', isUp ? dataAge(it, more) : ''] };
}

function connectionRow(view, [key, it], badge, kind, more, since = '') {
  return { key, kind, cells: [named(it.peer), it.kind, pointName(view, it.consumed), pointName(view, it.produced), said([badge]), since, `${it.o_t_ms} ms in, ${it.t_o_ms} ms out`,
    dataAge(it, more)] };
}

function renderConnections(view, snapshot, more) {
  const place = byId('connections'), kind = snapshot.slots ? 'Slots' : 'Connections';
  if (byId('rows-title').textContent !== kind) {
    byId('rows-title').textContent = kind;
    place.replaceChildren();
  }
  const { present, earlier } = sorted(snapshot.connections ?? []);
  if (snapshot.slots) {
    fillTable(place, SLOT_HEADS, snapshot.slots.map((it) => slotRow(view, it, snapshot, more)));
  } else {
    fillTable(place, CONNECTION_HEADS, keyed(present).map((it) => connectionRow(view, it, modeOf(it[1]), '', more, sinceOf(it[1], snapshot))));
  }
  const fold = byId('fold'), isOpen = view.isUnfolded && earlier.length > 0;
  put(fold, `${earlier.length} earlier`);
  fold.hidden = !earlier.length;
  fold.setAttribute('aria-expanded', String(isOpen));
  byId('earlier').hidden = !isOpen;
  if (isOpen) fillTable(byId('earlier'), CONNECTION_HEADS, keyed(earlier).map((it) => connectionRow(view, it, ['timed out', ''], 'past', more)));
}

byId('fold').onclick = () => {
  viewOf(shown).isUnfolded = !viewOf(shown).isUnfolded;
  renderShown();
};

const GAP_HEADS = ['', 'received', 'sent', 'lost', 'repeated', 'old', 'wrong size', 'gaps of the last minute, ms', 'gaps since it opened, ms', 'time-outs, the last'];

// how often a row timed out, and when last
function timeOutsOf(view, key, it, snapshot) {
  if (snapshot.slots) {
    return it.time_outs ? `${it.time_outs}, ${clockOf(wallOf(snapshot, it.last_time_out_ms))}` : '0';
  }
  const own = view.since.get(key), held = snapshot.connections.filter((other) => !other.established && pairOf(other) === pairOf(it));
  const count = Math.max(own?.timeOuts ?? 0, held.length), newest = Math.max(-1, ...held.map((other) => other.last_time_out_ms ?? -1));
  const last = newest < 0 ? own?.last : wallOf(snapshot, newest);
  return last ? `${count}, ${clockOf(last)}` : String(count);
}

function renderGaps(view, snapshot) {
  const rows = rowsOf(view, snapshot).map(([key, it, name]) => {
    const [minute, since] = gapsOf(it), numbers = [it.received, it.sent, it.lost, it.duplicate, it.old, it.wrong_size];
    return { key, cells: [withNames(name), ...numbers.map((number) => number ?? ''), minute, since, timeOutsOf(view, key, it, snapshot)] };
  });
  fillTable(byId('gaps'), GAP_HEADS, rows);
}

function renderTotals(snapshot) {
  const { totals, counts, connections } = snapshot;
  const up = connections ? connections.filter((it) => it.established).length : totals.connections;
  const earlier = connections && connections.length > up ? `, and ${connections.length - up} that timed out` : '';
  const rows = [['streams, sessions', `${totals.streams}, ${totals.sessions}`], ['connections', `${up}${earlier}`],
    ['class 3 connections', totals.class_3], ['connection ids left', totals.ids_left],
    ['datagrams received, sent', `${counts.received}, ${counts.sent}`], ['datagrams whose data were applied', counts.applied],
    ['sequence numbers lost', counts.lost]];
  fillTable(byId('totals'), ['', ''], rows.map((cells) => ({ key: cells[0], cells })));
}

// lines of a list, each with a time in front
function fillLines(place, lines, none) {
  keep(place, lines.length ? lines.map(([key]) => key) : ['none'], () => element('li'), (line, at) => {
    if (!line.firstChild) line.append(element('b'), element('span'));
    put(line.firstChild, lines[at] ? `${lines[at][1]}  ` : '');
    put(line.lastChild, lines[at] ? withNames(lines[at][2]) : none);
  });
}

function renderTroubles(view) {
  const lines = [...view.troubles].reverse().map(([key, it]) => [key, clockOf(it.wall), withSlots(view, troubleWords(it))]);
  fillLines(byId('troubles'), lines, 'nothing that is known');
}

function renderEvents(view) {
  const list = [...view.known.values()].sort((a, b) => b.number - a.number);
  const lines = list.filter((it) => isChosen(it, byId('event-kind').value, byId('event-text').value)).slice(0, 100);
  const none = list.length ? 'no event of this choice' : 'nothing has happened';
  fillLines(byId('events'), lines.map((it) => [String(it.number), `${it.number}. ${clockOf(it.wall)}, ${(it.ms / 1000).toFixed(3)} s`, it.words]), none);
}

for (const id of ['event-kind', 'event-text']) byId(id).oninput = () => renderEvents(viewOf(shown));
byId('event-kind').append(...Object.keys(EVENT_KINDS).map((name) => element('option', name)));

function keepEvents(view, snapshot) {
  const newest = snapshot.events[snapshot.events.length - 1]?.number;
  if (newest === view.newest) return;
  view.newest = newest;
  for (const event of snapshot.events) {
    view.known.set(event.number, { ...event, wall: view.known.get(event.number)?.wall ?? wallOf(snapshot, event.ms) });
  }
  const kept = [...view.known.keys()].sort((a, b) => a - b).slice(-KEPT_EVENTS);
  if (kept.length < view.known.size) view.known = new Map(kept.map((number) => [number, view.known.get(number)]));
}

// THE DEVICES OF A PLANT

const DEVICE_HEADS = ['device', '', 'established', 'datagrams received, sent', 'lost', 'contact', 'last trouble'];

// how many slots of a scanner are established; how many connections of an adapter are, and how many are lost
function summaryOf(last) {
  if (last.slots) {
    const up = last.slots.filter((it) => it.state === 'established').length;
    return [[`${up} of ${last.slots.length}`, up === last.slots.length ? (up ? 'good' : '') : 'bad']];
  }
  const { present, lost } = sorted(last.connections), up = present.length - lost;
  return [[String(up), up ? 'good' : ''], ...(lost ? [[`${lost} lost`, 'bad']] : [])];
}

const linked = (name, device) => (cell) => {
  if (!cell.firstChild) {
    cell.append(element('span', undefined, 'bytes'));
    cell.firstChild.append(element('button'));
    cell.firstChild.firstChild.onclick = () => choose(device);
  }
  dress(cell.firstChild.firstChild, name, device === shown ? 'chosen' : '');
};

function deviceRow(name, device) {
  const view = viewOf(device), { last } = view, key = String(device), kind = isStale(view) ? 'stale' : '';
  if (!last) return { key, kind, cells: [linked(name, device), '', said([], 'nothing yet'), '', '', kind ? since(view) : '', ''] };
  const trouble = view.lastTrouble, mode = last.mode ? `, ${last.mode}` : '';
  return { key, kind, cells: [linked(name, device), last.slots ? `scanner${mode}` : 'adapter', said(summaryOf(last)),
    `${last.counts.received}, ${last.counts.sent}`, last.counts.lost, kind ? since(view) : 'live',
    trouble ? `${clockOf(trouble.wall)} ${shortened(withNames(withSlots(view, trouble.words)))}` : ''] };
}

function shortened(words) { return words.length > 80 ? `${words.slice(0, 77)}..` : words; }

function renderDevices() {
  if (station.devices.length) fillTable(byId('devices'), DEVICE_HEADS, station.devices.map(deviceRow));
}

function renderDevice(device) {
  const row = station.devices.length ? tableIn(byId('devices'), DEVICE_HEADS).rows[device] : undefined;
  if (row) fillRow(row, DEVICE_HEADS, deviceRow(station.devices[device], device));
}

function choose(device) {
  shown = device;
  byId('device').value = String(device);
  chosen.clear();
  frozen = null;
  marks += 1;
  renderAll();
}

byId('device').onchange = () => choose(Number(byId('device').value));

// THE CHART

byId('points').onclick = (event) => {
  const key = event.target.closest('button')?.dataset.byte;
  if (key === undefined) return;
  if (!chosen.delete(key)) chosen.add(key);
  marks += 1;
  renderShown();
};

byId('points').onmouseover = (event) => {
  const one = event.target.closest('button');
  if (one) one.title = `byte ${one.dataset.byte.replace(':', '.')}: ${parseInt(one.textContent, 16)}; a click draws it`;
};

function pointsOf(snapshot) {
  const points = [...(snapshot.outputs ?? []), ...(snapshot.inputs ?? [])].map((it) => [it.point, it.bytes]);
  const slots = (snapshot.slots ?? []).flatMap((it) => [[it.slot, it.bytes], [outputOf(it), it.output]]);
  return [...points, ...slots];
}

// A rate is that since a sample which is old enough, unless there is a gap between both.
function takeSample(view, snapshot) {
  const { samples } = view, { ms, counts } = snapshot;
  if (samples.length > 1 && ms - samples[samples.length - 2].ms < RATE_MS) samples.pop();
  const before = samples.findLast((it) => it.ms <= ms - RATE_MS);
  const seconds = before ? (ms - before.ms) / 1000 : Infinity;
  const rate = (name) => seconds > STALE_MS / 1000 ? undefined : (counts[name] - before.counts[name]) / seconds;
  const values = Object.fromEntries(pointsOf(snapshot));
  for (const name of Object.keys(values)) if (before?.values[name] === values[name]) values[name] = before.values[name];
  samples.push({ ms, counts, values, received: rate('received'), sent: rate('sent'), lost: rate('lost') });
  while (samples[0].ms < ms - KEPT_MS) samples.shift();
}

function byteAt(sample, key) {
  const at = key.lastIndexOf(':'), hex = sample.values[key.slice(0, at)], byte = Number(key.slice(at + 1));
  return hex && hex !== '-' && 2 * byte < hex.length ? parseInt(hex.slice(2 * byte, 2 * byte + 2), 16) : undefined;
}

// the lines of the chart: a name, the value of a sample, and the value at the top
function linesOfChart(most) {
  const rates = [['received a second', 'received'], ['sent a second', 'sent'], ['lost a second', 'lost']].map(([name, field]) => [name, (it) => it[field], most]);
  return [...rates, ...[...chosen].map((key) => [`byte ${key.replace(':', '.')}`, (it) => byteAt(it, key), 255])];
}

byId('freeze').onclick = () => {
  const view = viewOf(shown), isHeld = !frozen && view.last;
  frozen = isHeld ? { samples: [...view.samples], end: view.last.ms + ageOf(view), snapshot: view.last } : null;
  renderShown();
};

byId('export').onclick = () => {
  const view = viewOf(shown), { samples, snapshot } = frozen ?? { samples: view.samples, snapshot: view.last };
  if (!snapshot) return;
  save('chart.csv', tableOf(samples, (it) => wallOf(snapshot, it.ms), linesOfChart(1)));
};

byId('save').onclick = () => {
  const view = viewOf(shown);
  if (view.last) save('numbers.csv', numbersOf(view, view.last));
};

// has the browser save a table
function save(name, text) {
  const link = element('a');
  link.href = URL.createObjectURL(new Blob([text], { type: 'text/csv' }));
  link.download = name;
  link.click();
  setTimeout(() => URL.revokeObjectURL(link.href), 10000);
}

function drawChart(view, more) {
  const canvas = byId('chart'), scale = window.devicePixelRatio || 1;
  const width = canvas.clientWidth, height = canvas.clientHeight, { samples } = frozen ?? view;
  canvas.width = width * scale;
  canvas.height = height * scale;
  put(byId('freeze'), frozen ? `go on, frozen at ${clockOf(wallOf(frozen.snapshot, frozen.end))}` : 'freeze');
  byId('freeze').setAttribute('aria-pressed', String(frozen !== null));
  if (!samples.length) return;
  const pen = canvas.getContext('2d');
  pen.scale(scale, scale);
  const end = frozen ? frozen.end : samples[samples.length - 1].ms + more, left = 46, right = 34, top = 20, foot = 22;
  const across = (ms) => width - right - (end - ms) / KEPT_MS * (width - left - right);
  const up = (share) => height - foot - share * (height - top - foot);
  const most = Math.max(10, ...samples.map((it) => Math.max(it.received ?? 0, it.sent ?? 0, it.lost ?? 0))) * 1.1;
  drawAxes(pen, { width, height, left, right, end, across, up, most });
  pen.beginPath();
  pen.rect(left, 0, width - left - right, height);
  pen.clip();
  const lines = linesOfChart(most);
  lines.forEach(([, value, top], at) => stroke(pen, samples, across, (it) => value(it) === undefined ? undefined : up(value(it) / top), COLOURS[at % COLOURS.length]));
  keep(byId('key'), lines.map(([name]) => name), () => element('span'), (mark, at) => {
    if (!mark.firstChild) mark.append(element('i'), lines[at][0]);
    mark.firstChild.style.background = COLOURS[at % COLOURS.length];
  });
}

function drawAxes(pen, { width, height, left, right, end, across, up, most }) {
  const style = getComputedStyle(document.documentElement), line = style.getPropertyValue('--line');
  pen.font = '11px system-ui';
  pen.fillStyle = style.getPropertyValue('--dim');
  pen.lineWidth = 1;
  pen.strokeStyle = line;
  for (let part = 0; part <= 4; part += 1) {
    const y = up(part / 4);
    pen.strokeRect(left, y, width - left - right, 0);
    pen.fillText(Math.round(most * part / 4), 4, y + 4);
    if (chosen.size) pen.fillText(Math.round(255 * part / 4), width - right + 5, y + 4);
  }
  const step = width < 600 ? 60 : 30;
  for (let s = KEPT_MS / 1000; s >= 0; s -= step) {
    const text = s ? `-${Math.floor(s / 60)}:${String(s % 60).padStart(2, '0')} min` : frozen ? 'then' : 'now';
    const x = across(end - s * 1000) - (s === 0 ? 22 : s === KEPT_MS / 1000 ? 0 : 20);
    pen.fillText(text, x, height - 6);
  }
  pen.fillText('datagrams a second', 4, 11);
  if (chosen.size) pen.fillText('byte', width - right + 5, 11);
}

// A line is broken where a value is missing, or no snapshot came.
function stroke(pen, samples, across, high, colour) {
  pen.strokeStyle = colour;
  pen.lineWidth = 1.5;
  pen.beginPath();
  let before;
  for (const it of samples) {
    const y = high(it);
    if (y === undefined) {
      before = undefined;
      continue;
    }
    if (before === undefined || it.ms - before > STALE_MS) pen.moveTo(across(it.ms), y); else pen.lineTo(across(it.ms), y);
    before = it.ms;
  }
  pen.stroke();
}

// CALLS

function fillChoices(view, snapshot) {
  const senders = (snapshot.slots ?? []).filter((it) => it.output !== '-');
  const points = snapshot.slots ? senders.map((it) => it.slot) : snapshot.inputs.map((it) => it.point);
  const shownAs = (id, value) => snapshot.slots || id === 'slot' ? slotName(view, value) : pointName(view, value);
  for (const [id, values] of [['write-point', points], ['slot', (snapshot.slots ?? []).map((it) => it.slot)]]) {
    const options = values.map((value) => new Option(shownAs(id, value), value));
    if ([...byId(id).options].map((it) => it.text).join() === options.map((it) => it.text).join()) continue;
    byId(id).replaceChildren(...options);
  }
  for (const form of document.forms) {
    form.hidden = !snapshot.slots && form.dataset.call !== 'write';
  }
}

function lineOf(form) {
  if (form.dataset.call === 'write') return `write ${byId('write-point').value} ${byId('write-bytes').value.replace(/ /g, '')}`;
  if (form.dataset.call === 'mode') return `mode ${byId('mode').value}`;
  return `${byId('slot-call').value} ${byId('slot').value}`;
}

async function call(own) {
  const line = station.devices.length ? `${station.devices[shown]} ${own}` : own;
  const answer = await fetch(`/call?${current}`, { method: 'POST', headers: { 'X-Station-Token': token }, body: line });
  byId('said').textContent = answer.ok ? `${line}: handed over` : `${line}: refused, ${answer.status} ${await answer.text()}`;
}

for (const form of document.forms) {
  form.onsubmit = (event) => {
    event.preventDefault();
    call(lineOf(form)).catch((fault) => { byId('said').textContent = String(fault); });
  };
}

// THE WHOLE

// Shows the device that is chosen, as it was at its last snapshot. Ages go on from there.
function renderShown() {
  renderDevice(shown);
  const view = viewOf(shown), { last } = view;
  showContact(view);
  if (!last) return clearParts();
  const more = ageOf(view), wall = last.wall_ms === undefined ? '' : `${clockOf(last.wall_ms)}, `;
  put(byId('clock'), `${wall}event ${last.number}, ${(last.ms / 1000).toFixed(1)} s`);
  renderPoints(view, last, more);
  renderTroubles(view);
  renderConnections(view, last, more);
  renderGaps(view, last);
  renderTotals(last);
  renderEvents(view);
  fillChoices(view, last);
  drawChart(view, more);
}

// (a device of a plant of which nothing is known shows nothing of another one)
function clearParts() {
  put(byId('clock'), '');
  for (const id of ['points', 'troubles', 'connections', 'earlier', 'gaps', 'totals', 'events', 'key']) byId(id).replaceChildren();
  byId('fold').hidden = true;
}

function renderAll() {
  renderDevices();
  renderShown();
}

function showContact(view) {
  const stale = isStale(view), name = station.devices.length ? ` (${station.devices[shown]})` : '';
  const text = stale ? 'no contact' : view.last ? 'live' : 'no contact yet';
  dress(byId('contact'), text, stale ? 'badge bad' : view.last ? 'badge good' : 'badge');
  for (const part of document.querySelectorAll('section:not(#plant)')) part.classList.toggle('stale', stale);
  put(byId('bar'), stale ? since(view) + name : '');
  byId('bar').hidden = !stale;
  const mode = view.last?.mode;
  byId('own-mode').hidden = !mode;
  if (mode) dress(byId('own-mode'), mode, stale ? 'badge' : `badge ${mode === 'run' ? 'good' : 'warn'}`);
}

function showStation() {
  byId('title').textContent = station.name;
  document.title = station.name;
  byId('writes').hidden = !(station.writes && token);
  byId('plant').hidden = byId('device').hidden = !station.devices.length;
  byId('device').replaceChildren(...station.devices.map((name, at) => new Option(name, at)));
  byId('device').value = String(shown);
  byId('files').replaceChildren();
  if (!station.record) return;
  for (const [name, path] of [['record', '/record'], ['capture file', '/record.pcap']]) {
    const link = element('a', name);
    link.href = `${path}?${current}`;
    link.download = '';
    byId('files').append(link, ' ');
  }
}

// THE STREAM

let current = word, source = null, reported = 0;

function takeStation(text) {
  station = JSON.parse(text);
  if (shown >= Math.max(1, station.devices.length)) shown = 0;
  showStation();
  renderAll();
}

function takeSnapshot(device, snapshot) {
  const view = viewOf(device), { last } = view;
  const before = last && !view.isCut && last.number <= snapshot.number && last.ms <= snapshot.ms ? last : null;
  view.silence = Math.max(view.silence, last && isStale(view) ? ageOf(view) : 0);
  if (!before) Object.assign(view, { samples: [], known: new Map(), quickest: [], isCut: false, newest: undefined, newestTrouble: undefined, lives: view.lives + 1 });
  if (!before && device === shown) frozen = null;
  view.late = latenessOf(view, snapshot, before);
  Object.assign(view, { last: snapshot, heard: performance.now(), receivedWall: Date.now() });
  if (snapshot.node !== undefined) atNode.set(snapshot.node, device);
  keepEvents(view, snapshot);
  keepTroubles(view, snapshot, before);
  noteReturn(view, snapshot, last && !before);
  noteTimeOuts(view, snapshot, before);
  takeSample(view, snapshot);
  renderSoon(device);
}

// Several snapshots that wait are shown at once, so that a page that is slow stays of the present.
const due = new Set();

function renderSoon(device) {
  if (!due.size) setTimeout(renderDue, 0);
  due.add(device);
}

function renderDue() {
  for (const device of due) if (device === shown) renderShown(); else renderDevice(device);
  due.clear();
}

function listen() {
  reported = performance.now();
  source = new EventSource(`/events?${current}`);
  source.addEventListener('station', (event) => takeStation(event.data));
  source.addEventListener('names', (event) => { viewOf(Number(event.lastEventId)).names = JSON.parse(event.data); });
  source.onerror = listenAgain;
  source.onmessage = (event) => {
    reported = performance.now();
    takeSnapshot(Number(event.lastEventId), JSON.parse(event.data));
  };
}

// A stream that has ended is opened again. A station that has started again has another word, which its page says.
function listenAgain() {
  source?.close();
  source = null;
  setTimeout(() => findWord().then(listen, listenAgain), 1000);
}

async function findWord() {
  const answer = await fetch('/', { signal: AbortSignal.timeout(3000) });
  const found = /const word = '([0-9a-f]{32})'/.exec(await answer.text());
  if (!found) throw new Error('no page');
  if (found[1] === current) return;
  current = found[1];
  for (const view of views.values()) Object.assign(view, { isCut: true, names: {} });
}

// Without snapshots the page grows old by itself.
setInterval(() => {
  if (source && performance.now() - reported > SILENT_MS) listenAgain();
  renderDevices();
  if (ageOf(viewOf(shown)) > TICK_MS) renderShown();
}, TICK_MS);
listen();
</script>
</body>
</html>
";
