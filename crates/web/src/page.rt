//! The page for people: one text, whose script asks the other paths. tools/try-page tries it in a browser.

/// What the page may do (CSP level 3): run its script and have its style, which are named by their SHA-256, and ask the server that it came
/// from. `tools/try-page --policy` writes the sums anew.
const POLICY: &str =
    "default-src 'none'; script-src 'sha256-zFEUKUsn35o7xwLn1cSq5+bLxmnxUZcZiTkh8m65+Xg='; style-src 'sha256-kCfZNtj+hGc94PjQ5t/JD/y9y9woPzQWJcWiGu8c+QI='; connect-src 'self'; base-uri 'none'; form-action 'none'; frame-ancestors 'none'";

/// The page. Its script shows what the archive holds as text alone, never as HTML.
const PAGE: &str = r#"<!doctype html>
<html lang="en">
<meta charset="utf-8">
<meta name="viewport" content="width=device-width, initial-scale=1">
<title>rha: routes for a prefix</title>
<style>
:root { --ink: #1c2024; --dim: #57606a; --line: #d0d5da; --soft: #f3f5f7; }
* { box-sizing: border-box; }
body { margin: 0 auto; max-width: 84rem; padding: 1rem; font: 1rem/1.45 system-ui, sans-serif; color: var(--ink); background: #fff; }
h1 { margin: 0; font-size: 1.4rem; }
h2 { margin: 1.4rem 0 .4rem; font-size: 1.1rem; }
p { margin: .3rem 0; }
.dim, th { color: var(--dim); }
form, .tools { display: flex; flex-wrap: wrap; gap: .6rem 1rem; align-items: end; margin: .8rem 0; }
label { display: grid; flex: 1 1 13rem; color: var(--dim); font-size: .9rem; }
input, button { font: inherit; padding: .35rem .6rem; border: 1px solid #8a939c; border-radius: .3rem; background: #fff; color: var(--ink); }
input { min-width: 0; }
button { cursor: pointer; background: var(--soft); }
:focus-visible { outline: 3px solid #1b6ca8; outline-offset: 1px; }
#message:not(:empty) { padding: .5rem .8rem; border-left: 4px solid #b34700; background: var(--soft); }
#legend { display: flex; flex-wrap: wrap; gap: .2rem 1.2rem; margin: 0 0 .6rem; padding: 0; list-style: none; font-size: .9rem; }
.swatch { display: inline-block; width: .9rem; height: .9rem; margin-right: .35rem; vertical-align: -.1rem; border-radius: .15rem; }
.row { display: grid; grid-template-columns: 17rem 1fr; align-items: center; margin: .2rem 0; }
.name { overflow-wrap: anywhere; padding-right: .6rem; font-size: .9rem; }
.bar { position: relative; height: 1.7rem; touch-action: pan-y; cursor: crosshair; border: 1px solid var(--line); }
.none { background: repeating-linear-gradient(45deg, #fff 0 5px, #e3e7ea 5px 10px); }
.piece { position: absolute; top: 0; bottom: 0; overflow: hidden; padding-left: .3rem; color: #fff; font-size: .75rem; line-height: 1.6rem; white-space: nowrap; }
.mark { position: absolute; top: -.2rem; bottom: -.2rem; margin-left: -1px; border-left: 2px solid #000; }
.withdraw { border-left-style: dotted; }
.down { border-left: 5px double #000; }
#legend .mark { position: static; display: inline-block; height: 1rem; margin-right: .35rem; vertical-align: -.2rem; }
.cursor { position: absolute; top: -.35rem; bottom: -.35rem; border-left: 1px solid #d00000; box-shadow: 0 0 0 1px #fff; pointer-events: none; }
#axis { position: relative; height: 1.4rem; color: var(--dim); font-size: .75rem; }
#axis span { position: absolute; padding-left: .2rem; border-left: 1px solid var(--dim); white-space: nowrap; }
.tools label { flex: 1 1 20rem; }
.tools input { padding: 0; }
.scroll { overflow-x: auto; }
table { border-collapse: collapse; font-size: .9rem; font-variant-numeric: tabular-nums; }
th, td { padding: .2rem .8rem .2rem 0; text-align: left; vertical-align: top; white-space: nowrap; border-bottom: 1px solid var(--line); }
td.wide { min-width: 12rem; white-space: normal; }
td button { padding: 0; border: 0; background: none; color: #0b5394; text-decoration: underline; }
@media (max-width: 44rem) { .row { grid-template-columns: 1fr; } }
</style>
<h1>Routes for a prefix</h1>
<p id="standing" class="dim"></p>
<form id="form">
<label>Prefix <input id="prefix" required autocomplete="off" autocapitalize="off" spellcheck="false" placeholder="203.0.113.0/24"></label>
<label>From (UTC) <input id="from" required autocomplete="off" spellcheck="false" placeholder="2024-01-01T00:00:00Z"></label>
<label>To (UTC) <input id="to" required autocomplete="off" spellcheck="false" placeholder="2024-01-01T00:14:59Z"></label>
<button>Show</button>
</form>
<p id="message" role="status"></p>
<noscript><p>This page asks the archive by a script, which this browser doesn't run. PROTOCOL.md has the paths that it asks.</p></noscript>
<main id="found" hidden>
<h2>Timeline</h2>
<p id="count" class="dim"></p>
<ul id="legend"></ul>
<div id="timeline"></div>
<div class="row"><div></div><div id="axis"></div></div>
<div class="tools">
<label>Moment <input id="moment" type="range" step="1"></label>
<button id="before" type="button">Change before</button>
<button id="after" type="button">Next change</button>
</div>
<h2>Routes at <time id="now"></time></h2>
<div class="scroll" tabindex="0" role="region" aria-label="Routes at the moment"><table>
<thead><tr><th>Collector<th>Peer<th>AS<th>Origin AS<th>Path<th>Next hop<th>MED<th>LOCAL_PREF<th>Communities<th>Since</tr></thead>
<tbody id="routes"></tbody>
</table></div>
<h2>Events</h2>
<p id="rest" class="dim"></p>
<div class="scroll" tabindex="0" role="region" aria-label="Events"><table>
<thead><tr><th>Time (UTC)<th>Collector<th>Peer<th>AS<th>Event<th>Origin AS<th>Path<th>Next hop<th>Communities</tr></thead>
<tbody id="events"></tbody>
</table></div>
</main>
<script>
'use strict';
// White text is readable on each of them.
const COLOURS = ['#1b6ca8', '#b34700', '#2e7d32', '#8e24aa', '#ad1457', '#00695c', '#5d4037', '#455a64'];
// Seconds between two labels of the axis.
const STEPS = [1, 2, 5, 10, 15, 30, 60, 120, 300, 600, 900, 1800, 3600, 7200, 14400, 21600, 43200, 86400, 172800, 604800, 2592000];
// How many answers to one question are followed, and how many events are shown.
const ANSWERS = { rows: 20, peers: 500, events: 20 }, EVENTS = 2000;
const LAST = 4294967295.999999;
const KINDS = ['announce', 'withdraw', 'down'];

const get = id => document.getElementById(id);
let asking = new AbortController();
let view = null;

// All text goes into the page as text, so nothing that an archive holds is read as HTML.
function make(name, kind, ...parts) {
  const it = document.createElement(name);
  if (kind) it.className = kind;
  it.append(...parts);
  return it;
}

const say = (...parts) => get('message').replaceChildren(...parts);
const fraction = time => time % 1 ? (time % 1).toFixed(6).slice(1).replace(/0+$/, '') : '';
const date = time => new Date(Math.floor(time) * 1000).toISOString().replace('.000', fraction(time));
const origin = route => route.path === '' ? 'no path' : 'AS' + route.path.split(' ').pop();
const key = it => `${it.collector} ${it.peer} ${it.as_number}`;
const query = pairs => Object.entries(pairs).map(([name, value]) => `${name}=${encodeURIComponent(value)}`).join('&');

function moment(text) {
  const it = text.trim();
  if (/^\d{1,10}(\.\d{1,6})?$/.test(it)) return Number(it) <= LAST ? Number(it) : null;
  const m = /^(\d{4}-\d\d-\d\d)(?:[T ](\d\d:\d\d)(?:(:\d\d)(\.\d{1,6})?)?)?(Z|[+-]\d\d:\d\d)?$/i.exec(it);
  const time = m ? Date.parse(`${m[1]}T${m[2] || '00:00'}${m[3] || ':00'}${(m[5] || 'Z').toUpperCase()}`) / 1000 + Number(m[4] || 0) : NaN;
  return time >= 0 && time <= LAST ? time : null;
}

async function ask(target, signal) {
  const answer = await fetch(target, { signal });
  const body = await answer.json();
  if (!answer.ok) throw Object.assign(new Error(body.error.message), { refusal: body.error });
  return body;
}

// All rows, peers or events, answer after answer.
async function askAll(target, member, signal) {
  const all = [];
  for (let n = 0; target; n++) {
    if (n === ANSWERS[member]) return { all, more: true };
    const body = await ask(target, signal);
    all.push(...body[member]);
    target = body.more ? body.next : null;
  }
  return { all, more: false };
}

// Does this for each, a few at a time.
async function forEach(list, act) {
  const done = [];
  let next = 0;
  const work = async () => {
    while (next < list.length) {
      const n = next++;
      done[n] = await act(list[n]);
    }
  };
  await Promise.all([work(), work(), work(), work()]);
  return done;
}

function inOrder(a, b) {
  const family = it => it.peer.includes(':') ? 6 : 4;
  return a.collector - b.collector || family(a) - family(b) || a.peer.localeCompare(b.peer, 'en', { numeric: true }) || a.as_number - b.as_number;
}

// A peer's routes for the prefix, each with the times from which and to which it holds; a moment has what its last event left.
function rowOf(peer, first, history, from, to) {
  const pieces = [];
  let route = first, begin = from, since = null;
  const end = time => { if (route && time > begin) pieces.push({ begin, end: time, route, since }); };
  for (const event of history.all) {
    end(event.time);
    [route, begin, since] = [event.route, event.time, event.time];
  }
  if (!history.more) end(to + 1);
  return { peer, pieces, events: history.all, more: history.more };
}

async function load(prefix, from, to, signal) {
  const lists = await Promise.all([from, to].flatMap(at => [
    askAll('/api/prefix?' + query({ at, prefix }), 'rows', signal),
    askAll('/api/peers?' + query({ at }), 'peers', signal),
  ]));
  const first = new Map(lists[0].all.map(row => [key(row), row]));
  const peers = [...new Map(lists.flatMap(it => it.all).map(it => [key(it), it])).values()].sort(inOrder);
  const histories = await forEach(peers, it => askAll(
    '/api/history?' + query({ from, to, collector: it.collector, peer: it.peer, as: it.as_number, prefix }), 'events', signal));
  const rows = peers.map((it, n) => rowOf(it, first.get(key(it)) || null, histories[n], from, to));
  const more = lists.some(it => it.more);
  return { prefix, from, to, peers: peers.length, more, rows: rows.filter(it => it.pieces.length || it.events.length) };
}

function link(prefix, from, to) {
  const it = make('a', '', prefix);
  it.href = '#' + query({ prefix, from: date(from), to: date(to) });
  return it;
}

// Which prefixes could be meant where nobody has this one.
async function suggest(prefix, from, to, signal) {
  const said = `No peer had a route for ${prefix} in this time, and none announced or withdrew it. `;
  const cover = await askAll('/api/cover?' + query({ at: to, address: prefix.split('/')[0] }), 'rows', signal);
  const others = [...new Set(cover.all.map(row => row.prefix))].filter(it => it !== prefix);
  const links = others.flatMap((it, n) => [n ? ', ' : '', link(it, from, to)]);
  if (others.length) say(said, `At ${date(to)} there were routes for prefixes that contain its address: `, ...links, '.');
  else say(said);
}

function reasonOf(why, prefix) {
  const it = why.refusal;
  if (!it) return `The archive didn't answer: ${why.message}.`;
  if (it.name === 'AboveWatermark') {
    return it.settled ? `That isn't settled yet; moments before ${date(it.settled)} are.` : 'Nothing is settled yet: a collector has no mark.';
  }
  if (it.name === 'BadRequest') return `${prefix} isn't a prefix. One is written as 203.0.113.0/24 or 2001:db8::/32.`;
  return `The archive couldn't answer: ${it.name} (${it.number}), ${it.message}.`;
}

async function show(prefix, from, to, at) {
  asking.abort();
  asking = new AbortController();
  const { signal } = asking;
  get('found').hidden = true;
  say('Asking the archive …');
  try {
    const found = await load(prefix, from, to, signal);
    if (!found.rows.length) return await suggest(prefix, from, to, signal);
    view = found;
    say();
    draw(at ?? from);
  } catch (why) {
    if (!signal.aborted) say(reasonOf(why, prefix));
  }
}

const share = time => (time - view.from) / (view.to + 1 - view.from) * 100;

// The origins, those that were held longest first.
function paint() {
  const held = new Map();
  const add = (route, time) => held.set(origin(route), (held.get(origin(route)) || 0) + time);
  for (const row of view.rows) {
    for (const it of row.pieces) add(it.route, it.end - it.begin);
    for (const it of row.events) if (it.route) add(it.route, 0);
  }
  const names = [...held].sort((a, b) => b[1] - a[1]).map(([name]) => name);
  view.colours = new Map(names.map((name, n) => [name, COLOURS[n] || `hsl(${n * 47 % 360} 60% 32%)`]));
}

function named(route) {
  const it = make('span', 'swatch');
  it.style.backgroundColor = view.colours.get(origin(route));
  return make('span', '', it, origin(route));
}

function barOf(row) {
  const bar = make('div', 'bar none');
  const says = [];
  for (const it of row.pieces) {
    const name = origin(it.route);
    const width = share(it.end) - share(it.begin);
    const piece = make('div', 'piece', width < 5 ? '' : name);
    piece.style.left = share(it.begin) + '%';
    piece.style.width = width + '%';
    piece.style.backgroundColor = view.colours.get(name);
    bar.append(piece);
    says.push(`${name} from ${date(it.begin)}`);
  }
  for (const it of row.events) {
    const mark = make('div', `mark ${it.event}`);
    mark.style.left = share(it.time) + '%';
    bar.append(mark);
  }
  bar.append(make('div', 'cursor'));
  bar.setAttribute('role', 'img');
  bar.setAttribute('aria-label', `${row.events.length} events; ${says.slice(0, 20).join(', ') || 'no route'}`);
  return bar;
}

function drawLegend() {
  const items = [...view.colours].slice(0, 16).map(([name, colour]) => {
    const swatch = make('span', 'swatch');
    swatch.style.backgroundColor = colour;
    return make('li', '', swatch, name);
  });
  items.push(make('li', '', make('span', 'swatch none'), 'no route'));
  items.push(...KINDS.map(kind => make('li', '', make('span', `mark ${kind}`), kind)));
  get('legend').replaceChildren(...items);
}

function drawAxis() {
  const span = view.to + 1 - view.from;
  const most = Math.max(1, Math.floor(get('axis').clientWidth / 90));
  const step = STEPS.find(it => span / it <= most) || span;
  const labels = [];
  for (let time = Math.ceil(view.from / step) * step; time <= view.to; time += step) {
    const text = date(time);
    const label = make('span', '', step >= 86400 ? text.slice(0, 10) : step >= 60 ? text.slice(11, 16) : text.slice(11, 19));
    label.style.left = share(time) + '%';
    if (share(time) <= 100 - 60 / most) labels.push(label);
  }
  get('axis').replaceChildren(...labels);
}

function rowIn(cells) {
  const it = make('tr');
  for (const cell of cells) it.append(make('td', typeof cell === 'string' && cell.length > 40 ? 'wide' : '', cell));
  return it;
}

const communities = it => [...it.communities, ...it.large_communities, ...it.extended_communities].join(' ');
const place = it => [String(it.collector), it.peer, String(it.as_number)];

function drawEvents() {
  const all = view.rows.flatMap(row => row.events.map(event => ({ peer: row.peer, event }))).sort((a, b) => a.event.time - b.event.time);
  view.times = [...new Set(all.map(it => it.event.time))];
  const cut = view.rows.some(row => row.more);
  const notes = [`${all.length}${cut ? ' and more' : ''} events in this time.`];
  if (all.length > EVENTS) notes.push(`The first ${EVENTS} are shown.`);
  if (cut) notes.push('A peer has more events than are followed: its timeline ends early. Choose a shorter time.');
  get('rest').textContent = notes.join(' ');
  get('events').replaceChildren(...all.slice(0, EVENTS).map(({ peer, event }) => {
    const button = make('button', '', date(event.time));
    button.type = 'button';
    button.addEventListener('click', () => look(event.time));
    const it = event.route;
    return rowIn([button, ...place(peer), event.event, ...(it ? [named(it), it.path, it.next_hop, communities(it)] : ['', '', '', ''])]);
  }));
}

// Shows the routes of a moment.
function look(time) {
  view.now = Math.min(Math.max(time, view.from), view.to);
  for (const it of document.querySelectorAll('.cursor')) it.style.left = share(view.now) + '%';
  get('moment').value = view.now;
  get('moment').setAttribute('aria-valuetext', date(view.now));
  get('now').textContent = date(view.now);
  const lines = view.rows.flatMap(row => {
    const it = row.pieces.find(piece => piece.begin <= view.now && view.now < piece.end);
    if (!it) return [];
    const { route } = it;
    const since = it.since === null ? `before ${date(view.from)}` : date(it.since);
    return [rowIn([...place(row.peer), named(route), route.path, route.next_hop, String(route.med ?? ''), String(route.local_pref ?? ''), communities(route), since])];
  });
  const none = make('td', '', 'No peer has a route for the prefix at this moment.');
  none.colSpan = 10;
  get('routes').replaceChildren(...(lines.length ? lines : [make('tr', '', none)]));
}

function draw(at) {
  paint();
  drawLegend();
  const others = view.peers - view.rows.length;
  const parts = [`${view.prefix}, ${date(view.from)} to ${date(view.to)}: ${view.rows.length} peers.`];
  if (others) parts.push(`${others} more with routes at one of these moments had none for it.`);
  if (view.more) parts.push('There are more peers than are followed.');
  get('count').textContent = parts.join(' ');
  get('timeline').replaceChildren(...view.rows.map(row => {
    const [collector, peer, number] = place(row.peer);
    return make('div', 'row', make('div', 'name', `${peer} AS${number} `, make('span', 'dim', `collector ${collector}`)), barOf(row));
  }));
  get('moment').min = view.from;
  get('moment').max = view.to;
  get('found').hidden = false;
  drawAxis();
  drawEvents();
  look(at);
}

function follow(event) {
  const bar = document.querySelector('.bar').getBoundingClientRect();
  const part = (event.clientX - bar.left) / bar.width;
  if (part >= 0 && part < 1) look(view.from + Math.floor(part * (view.to + 1 - view.from)));
}

function submit() {
  const at = new URLSearchParams(location.hash.slice(1)).get('at');
  const [prefix, from, to] = ['prefix', 'from', 'to'].map(id => get(id).value.trim());
  const [first, last] = [moment(from), moment(to)];
  if (first === null || last === null) return say('A moment is written as 2024-01-01T00:07:00Z, or as seconds since 1970.');
  if (first > last) return say('From is after To.');
  show(prefix, first, last, at === null ? null : moment(at));
}

function readHash() {
  const given = new URLSearchParams(location.hash.slice(1));
  for (const id of ['prefix', 'from', 'to']) if (given.has(id)) get(id).value = given.get(id);
  if (given.has('prefix')) submit();
}

async function begin() {
  try {
    const it = await ask('/api/info', null);
    const counts = it.collectors.map(each => `${each.admitted.toLocaleString('en')} of collector ${each.collector}`).join(', ');
    get('standing').textContent = it.settled ? `Settled: moments before ${date(it.settled)}. Records: ${counts}.` : 'Nothing is settled yet.';
    const last = Math.min(Math.max(it.settled - 1, 0), LAST);
    get('to').value ||= date(last);
    get('from').value ||= date(Math.max(last - 3599, 0));
  } catch (why) {
    say(reasonOf(why, ''));
  }
  readHash();
}

get('form').addEventListener('submit', event => {
  event.preventDefault();
  const hash = '#' + query({ prefix: get('prefix').value.trim(), from: get('from').value.trim(), to: get('to').value.trim() });
  if (hash === location.hash) submit();
  else location.hash = hash;
});
get('timeline').addEventListener('pointermove', follow);
get('timeline').addEventListener('pointerdown', follow);
get('moment').addEventListener('input', () => look(Number(get('moment').value)));
get('before').addEventListener('click', () => look(view.times.findLast(time => time < view.now) ?? view.from));
get('after').addEventListener('click', () => look(view.times.find(time => time > view.now) ?? view.to));
addEventListener('hashchange', readHash);
addEventListener('resize', () => view && drawAxis());
begin();
</script>
</html>
"#;

/// The value of `Content-Security-Policy` for the page.
pub(crate) fn policy() -> &'static str {
    POLICY
}

/// The page.
pub(crate) fn page_text() -> &'static str {
    PAGE
}
