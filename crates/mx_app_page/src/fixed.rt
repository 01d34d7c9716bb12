//! The fixed part of a page, made by `page/literal` of the files in `page`: edit those, and make it again.

/// What stands before the data.
pub(crate) const FRONT: &str = "<!DOCTYPE html>
<html lang=\"en\">
<head>
<meta charset=\"utf-8\">
<meta http-equiv=\"Content-Security-Policy\" content=\"default-src 'none'; script-src 'sha256-0q0Kny9QOwFhjZko7XPUpkUpzmV/ciRxLRqT2doEiXI='; style-src 'sha256-4hEkOXDjTcQghcveGEjU0Uqth/e0LzKWzM+SGE5Fs14='; base-uri 'none'; form-action 'none'; require-trusted-types-for 'script'; trusted-types 'none'\">
<meta name=\"viewport\" content=\"width=device-width, initial-scale=1\">
<meta name=\"referrer\" content=\"no-referrer\">
<title>A run of mx</title>
<style>:root {
  color-scheme: light dark; --paper: #fff; --ink: #111; --soft: #555; --line: #ccc; --panel: #f6f6f4;
  --mark: #fff2b3; --hit: #0a7a3c; --out: #0060a0; --outink: #fff; --doomed: #d55e00; --ready: #56b4e9;
  --sending: #e69f00; --awaiting: #cc79a7; --receiving: #999; --death: #b00020; --respawn: #00703c;
  --arrow: #111; --bad: #b00020;
}
@media (prefers-color-scheme: dark) {
  :root:not([data-theme=light]) {
    --paper: #16181c; --ink: #eee; --soft: #b5b5b5; --line: #444; --panel: #1f2227; --mark: #4a4320;
    --hit: #5fd38d; --out: #3d9be0; --outink: #000; --doomed: #ff8a3d; --ready: #2f7fae;
    --sending: #e0a020; --awaiting: #c06a98; --receiving: #888; --death: #ff7a85; --respawn: #5fd38d;
    --arrow: #eee; --bad: #ff8a93;
  }
}
:root[data-theme=dark] {
  color-scheme: dark; --paper: #16181c; --ink: #eee; --soft: #b5b5b5; --line: #444; --panel: #1f2227;
  --mark: #4a4320; --hit: #5fd38d; --out: #3d9be0; --outink: #000; --doomed: #ff8a3d; --ready: #2f7fae;
  --sending: #e0a020; --awaiting: #c06a98; --receiving: #888; --death: #ff7a85; --respawn: #5fd38d;
  --arrow: #eee; --bad: #ff8a93;
}
:root[data-theme=light] { color-scheme: light; }
* { box-sizing: border-box; }
body {
  margin: 0; background: var(--paper); color: var(--ink);
  font: 15px/1.4 system-ui, \"DejaVu Sans\", sans-serif;
}
header {
  display: flex; flex-wrap: wrap; gap: 4px 18px; align-items: baseline; padding: 8px 14px;
  border-bottom: 1px solid var(--line);
}
h1 { font-size: 18px; margin: 0; }
h2 { font-size: 14px; margin: 0 0 6px; }
header p { margin: 0; }
#summary { color: var(--soft); }
#search { display: flex; flex-wrap: wrap; gap: 4px; align-items: baseline; margin-left: auto; }
#found { margin-right: 14px; }
#query { width: 22em; max-width: 60vw; }
button, input { font: inherit; color: inherit; }
button {
  background: var(--panel); border: 1px solid var(--soft); border-radius: 4px; padding: 1px 8px;
  cursor: pointer; white-space: nowrap;
}
button:hover { border-color: var(--ink); }
:focus-visible { outline: 3px solid var(--out); outline-offset: 1px; }
main { padding: 6px 14px 20px; }
.hidden { position: absolute; width: 1px; height: 1px; overflow: hidden; clip-path: inset(50%); }
#overview { display: block; width: 100%; height: 40px; border: 1px solid var(--line); cursor: pointer; }
#slider { width: 100%; margin: 2px 0; }
#bar { display: flex; flex-wrap: wrap; gap: 4px 22px; margin: 2px 0 8px; }
.group { display: inline-flex; flex-wrap: wrap; gap: 4px; align-items: center; white-space: nowrap; }
#number { width: 5.5em; }
#lanes { display: grid; grid-template-columns: 250px 1fr; border: 1px solid var(--line); }
#names { border-right: 1px solid var(--line); background: var(--panel); }
#names div { padding: 0 8px; overflow: hidden; white-space: nowrap; }
#names .lane { cursor: pointer; border-top: 1px solid var(--line); padding-top: 3px; }
#names b { font-size: 14px; }
#names small { color: var(--soft); font-size: 12.5px; display: block; overflow: hidden; text-overflow: ellipsis; }
#names .focus { box-shadow: inset 4px 0 0 var(--out); }
#stage { position: relative; overflow: hidden; cursor: pointer; touch-action: pan-y; }
#dense { position: absolute; inset: 0; width: 100%; height: 100%; }
#picture { position: relative; display: block; width: 100%; }
#legend {
  grid-column: 1 / 3; display: flex; flex-wrap: wrap; gap: 2px 16px; list-style: none; margin: 0;
  padding: 4px 8px; border-top: 1px solid var(--line); font-size: 12.5px; color: var(--soft);
}
#legend svg { vertical-align: middle; margin-right: 4px; }
svg text { font: 11px system-ui, \"DejaVu Sans\", sans-serif; fill: var(--ink); }
svg .num { fill: var(--soft); }
svg .rule { stroke: var(--line); }
svg .sel { fill: var(--mark); }
svg .selline { stroke: var(--ink); stroke-width: 1.5; fill: none; }
svg .s0 { fill: var(--ready); }
svg .s1 { fill: var(--out); }
svg .s2 { fill: var(--doomed); }
svg .s3 { fill: var(--sending); }
svg .s4 { fill: var(--sending); }
svg .s4b, svg .s6 { fill: var(--awaiting); }
svg .s5 { fill: var(--receiving); }
svg .in { fill: #000; }
svg .in1 { fill: var(--outink); font-weight: bold; }
svg .hatch { stroke: var(--paper); stroke-width: 1.4; }
svg .msg { stroke: var(--arrow); stroke-width: 1.6; fill: none; }
svg .head { fill: var(--arrow); }
svg .note { stroke-dasharray: 5 3; }
svg .open { fill: none; stroke: var(--arrow); stroke-width: 1.6; }
svg .death { stroke: var(--death); stroke-width: 2.6; fill: none; }
svg .respawn { stroke: var(--respawn); fill: none; stroke-width: 1.8; }
svg .respawnmark { fill: var(--respawn); }
svg text.bad { fill: var(--bad); font-weight: bold; }
svg text.good { fill: var(--respawn); }
svg .halo { paint-order: stroke; stroke: var(--paper); stroke-width: 3px; }
svg .hitmark { fill: var(--hit); }
svg .cell { fill: transparent; }
svg .same { fill: var(--line); }
svg .other { fill: #f2b84b; }
svg .t1 { fill: #9fd0ee; }
svg .t2 { fill: #e3b3d0; }
svg .t3 { fill: #a9d8a0; }
svg .tick { stroke: #000; fill: none; }
svg .hover { fill: none; }
#panels {
  display: grid; grid-template-columns: repeat(auto-fit, minmax(360px, 1fr)); gap: 10px; margin-top: 10px;
}
.panel { border: 1px solid var(--line); background: var(--panel); padding: 8px 10px; min-width: 0; }
.scroll { overflow-x: auto; }
#gloss { margin: 0 0 6px; }
#did p {
  margin: 0 0 2px; font: 13.5px/1.5 ui-monospace, \"DejaVu Sans Mono\", monospace; white-space: pre-wrap;
  overflow-wrap: anywhere;
}
#did p.first { font-weight: bold; }
#did p.rest { padding-left: 1.4em; }
#did p.bad { color: var(--bad); }
#did p.bad::before { content: \"! \"; }
table { border-collapse: collapse; width: 100%; font-size: 13.5px; }
th, td { text-align: left; padding: 1px 8px 1px 0; vertical-align: top; }
thead th { color: var(--soft); font-weight: normal; border-bottom: 1px solid var(--line); }
tr.changed td, tr.changed th { background: var(--mark); }
tbody th { font-weight: bold; }
#queues p { margin: 0 0 4px; font-size: 13.5px; }
#queues ul { margin: 0 0 4px; padding-left: 1.2em; font-size: 13.5px; }
#console {
  margin: 0; max-height: 190px; min-height: 3em; overflow: auto; white-space: pre-wrap;
  overflow-wrap: anywhere; font: 13px/1.4 ui-monospace, \"DejaVu Sans Mono\", monospace;
  background: var(--paper); border: 1px solid var(--line); padding: 4px 6px;
}
#console .new { background: var(--mark); outline: 2px solid var(--ink); }
#console .odd { color: var(--bad); }
#list {
  height: 230px; overflow-y: auto; position: relative; background: var(--paper);
  border: 1px solid var(--line); font: 13px/20px ui-monospace, \"DejaVu Sans Mono\", monospace;
}
#list .row {
  position: absolute; left: 0; right: 0; height: 20px; padding: 0 6px; white-space: pre; overflow: hidden;
  text-overflow: ellipsis; cursor: pointer;
}
#list .row[aria-selected=true] { background: var(--mark); box-shadow: inset 4px 0 0 var(--ink); }
#list .hit { font-weight: bold; }
.small { font-weight: normal; font-size: 13px; color: var(--soft); }
#sweep pre {
  margin: 4px 0; white-space: pre-wrap; font: 13px/1.4 ui-monospace, \"DejaVu Sans Mono\", monospace;
}
dialog { max-width: 700px; color: var(--ink); background: var(--paper); border: 2px solid var(--soft); }
kbd, #words code { white-space: nowrap; }
kbd { border: 1px solid var(--soft); border-radius: 3px; padding: 0 5px; font: 13px ui-monospace, monospace; }
#paper { display: none; }
@media (min-width: 790px) {
  .wide { grid-column: span 2; }
  #keys tbody { display: grid; grid-template-columns: 1fr 1fr; }
  #keys tr { display: grid; grid-template-columns: 7.5em 1fr; }
}
@media (max-width: 700px) {
  #lanes { grid-template-columns: 118px 1fr; }
  #panels { grid-template-columns: 1fr; }
  #search { margin-left: 0; }
  #found { order: 1; }
  main { padding: 6px 6px 20px; }
}
@media (forced-colors: active) {
  svg .s1, svg .s0, svg .s3, svg .s4, svg .s6 { stroke: CanvasText; forced-color-adjust: none; }
}
@media (prefers-reduced-motion: no-preference) {
}
@media print {
  @page {
    size: A4 landscape;
    margin: 12mm;
  }
  :root, :root:not([data-theme=light]), :root[data-theme=dark] {
    color-scheme: light; --paper: #fff; --ink: #000; --soft: #333; --line: #bbb; --panel: #fff;
    --mark: #eee; --out: #0060a0; --outink: #fff; --ready: #56b4e9; --sending: #e69f00;
    --awaiting: #cc79a7; --receiving: #999; --death: #b00020; --respawn: #00703c; --arrow: #000;
    --bad: #b00020; --doomed: #d55e00;
  }
  body { font-size: 11pt; }
  * { print-color-adjust: exact; -webkit-print-color-adjust: exact; }
  #search, .tools, #whole, #listpanel, #lanes { display: none; }
  #paper { display: block; }
  #paper svg { display: block; width: 100%; break-inside: avoid; margin-bottom: 6mm; }
  #panels { display: block; }
  .panel { break-inside: avoid; margin-bottom: 4mm; }
  #console { max-height: none; }
}
</style>
</head>
<body>
<header>
<h1 id=\"title\">A run of mx</h1>
<p id=\"summary\">reading</p>
<form id=\"search\" role=\"search\" autocomplete=\"off\">
<output id=\"found\" for=\"query\"></output>
<label for=\"query\">Search</label>
<input id=\"query\" type=\"search\" spellcheck=\"false\" placeholder=\"disk  type:3  from:ann  call:DEVIO  is:error\" aria-describedby=\"found\">
<button type=\"submit\" title=\"next hit (Enter)\">next hit</button>
<button type=\"button\" id=\"hitback\" title=\"hit before (Shift+Enter)\">hit before</button>
</form>
<p class=\"tools\">
<button type=\"button\" id=\"theme\">dark / light</button>
<button type=\"button\" id=\"helpbutton\" aria-haspopup=\"dialog\">keys (?)</button>
</p>
</header>
<main>
<section aria-label=\"The whole run\" id=\"whole\">
<canvas id=\"overview\" height=\"40\" aria-hidden=\"true\" title=\"the whole run: click or drag to go there\"></canvas>
<label class=\"hidden\" for=\"slider\">Record of the run</label>
<input id=\"slider\" type=\"range\" min=\"0\" max=\"0\" value=\"0\" step=\"1\">
<p id=\"bar\">
<span class=\"group\" role=\"group\" aria-label=\"Records\">
<button type=\"button\" data-do=\"first\" title=\"to the start (Home)\">|&lt;</button>
<button type=\"button\" data-do=\"before\" title=\"record before (left)\">&lt;</button>
<label>record <input id=\"number\" type=\"number\" min=\"0\" inputmode=\"numeric\"></label> of <span id=\"total\">0</span>
<button type=\"button\" data-do=\"after\" title=\"next record (right)\">&gt;</button>
<button type=\"button\" data-do=\"last\" title=\"to the end (End)\">&gt;|</button>
</span>
<span class=\"group\" role=\"group\" aria-label=\"Messages of this pair\">
<button type=\"button\" data-do=\"pairback\" title=\"message before of this pair (p)\">&lt; pair</button>
<button type=\"button\" data-do=\"pairnext\" title=\"next message of this pair (n)\">pair &gt;</button>
</span>
<span class=\"group\" role=\"group\" aria-label=\"Jumps\">
<button type=\"button\" data-do=\"death\" title=\"next death (d)\">death &gt;</button>
<button type=\"button\" data-do=\"error\" title=\"next error (e)\">error &gt;</button>
<button type=\"button\" data-do=\"console\" title=\"next console byte (c)\">console &gt;</button>
</span>
<span class=\"group\" role=\"group\" aria-label=\"Zoom\">
<button type=\"button\" data-do=\"out\" title=\"smaller (-)\">-</button>
<button type=\"button\" data-do=\"in\" title=\"larger (+)\">+</button>
<button type=\"button\" data-do=\"fit\" title=\"the whole run (0)\">all</button>
<button type=\"button\" data-do=\"read\" title=\"readable size (1)\">read</button>
</span>
</p>
</section>
<section id=\"lanes\" aria-label=\"Lanes: a row for each service\">
<div id=\"names\"></div>
<div id=\"stage\" tabindex=\"0\" role=\"slider\" aria-orientation=\"horizontal\" aria-valuemin=\"0\" aria-valuemax=\"0\" aria-valuenow=\"0\">
<canvas id=\"dense\" aria-hidden=\"true\"></canvas>
<svg id=\"picture\" xmlns=\"http://www.w3.org/2000/svg\" aria-hidden=\"true\"></svg>
</div>
<ul id=\"legend\" aria-label=\"What the bars and arrows mean\"></ul>
</section>
<p id=\"said\" class=\"hidden\" aria-live=\"polite\"></p>
<div id=\"paper\" aria-hidden=\"true\"></div>
<div id=\"panels\">
<section class=\"panel\" aria-labelledby=\"hdid\"><h2 id=\"hdid\">What record <span class=\"k\">0</span> did</h2><p id=\"gloss\"></p><div id=\"did\"></div></section>
<section class=\"panel\" aria-labelledby=\"hproc\"><h2 id=\"hproc\">Processes after it</h2><div class=\"scroll\"><table id=\"processes\"><thead><tr><th scope=\"col\">slot</th><th scope=\"col\">service</th><th scope=\"col\">endpoint</th><th scope=\"col\">state</th><th scope=\"col\">level</th><th scope=\"col\">ticks left</th></tr></thead><tbody></tbody></table></div></section>
<section class=\"panel\" aria-labelledby=\"hq\"><h2 id=\"hq\">Queues, and who waits for whom</h2><div id=\"queues\"></div></section>
<section class=\"panel\" aria-labelledby=\"hcon\"><h2 id=\"hcon\">Console until then</h2><pre id=\"console\" tabindex=\"0\" aria-label=\"console\"></pre></section>
<section class=\"panel\" id=\"sweeppanel\" aria-labelledby=\"hsw\" hidden><h2 id=\"hsw\">Sweep</h2><div id=\"sweep\"></div></section>
<section class=\"panel\" id=\"listpanel\" aria-labelledby=\"hlist\"><h2 id=\"hlist\">Records <label class=\"small\"><input type=\"checkbox\" id=\"onlyhits\"> only hits</label></h2><div id=\"list\" tabindex=\"0\" role=\"listbox\" aria-labelledby=\"hlist\"><div id=\"spacer\"></div></div></section>
</div>
</main>
<dialog id=\"help\" aria-labelledby=\"hhelp\"><h2 id=\"hhelp\">Keys</h2><table id=\"keys\"><tbody></tbody></table>
<p><label><input type=\"checkbox\" id=\"single\" checked> letters are shortcuts</label></p>
<h2>Search</h2><table id=\"words\"><tbody></tbody></table>
<form method=\"dialog\"><button>close</button></form></dialog>
<noscript><p>This page draws the run by its script. Without one, read it by <code>mx trace</code>.</p></noscript>
<script type=\"application/json\" id=\"data\">";

/// What stands after them.
pub(crate) const BACK: &str = "</script>
<script>\"use strict\";
{
// The script of a page of a run: see the README beside this folder. It reads the data part once, draws what is in
// view, and writes text only by textContent: nothing of the data can become markup.

const $ = id => document.getElementById(id);

// ---- the data
// The first line is for the run, the last one for how it ends, and each line between them is a record's row; below the
// rows there may be lines for ranges of positions of a sweep.
// A row is parsed once while the page is read, for what is drawn of all records; what the panels show of one
// record is parsed again when it is asked for. So the memory of a page is the text and some bytes a record.

const State = {
  READY: 0, OUT: 1, DOOMED: 2, SENDING: 3, CALLING: 4, RECEIVING: 5, AWAITING: 6, EXITED: 7, KILLED: 8, FAULTED: 9
};
const STATE_WORDS = [
  \"ready\", \"out\", \"doomed\", \"sending\", \"calling\", \"receiving\", \"awaiting\", \"down exit\", \"down kill\", \"down fault\"
];
const EventKind = {TAKE: 0, BACK: 1, LINE: 2, TICK: 3, KILL: 4, RESPAWN: 5};
const EVENT_WORDS = [\"take\", \"back\", \"line\", \"tick\", \"kill\", \"respawn\"];
const ArrowKind = {MESSAGE: 0, NOTIFICATION: 1, WAITING: 2};
// A record's flags.
const DEATH = 1, RESPAWN = 2, WRONG = 4, CONSOLE = 8, MESSAGE = 16, PENDING = 32;
const ANY = 31438, SLOT_BITS = 1023;
const SOURCES = {HARDWARE: -1, SYSTEM: -2, CLOCK: -3};

const isDown = state => state >= State.EXITED;
const isOut = state => state === State.OUT || state === State.DOOMED;
const slotOf = endpoint => endpoint & SLOT_BITS;

// How many of count rising numbers, at(0), at(1), .., are not above x: the place behind the last of them.
function countUpTo(count, at, x) {
  let low = 0, high = count;
  while (low < high) {
    const middle = (low + high) >> 1;
    if (at(middle) <= x) low = middle + 1;
    else high = middle;
  }
  return low;
}

// A list of rows of numbers, by their first one, which rises: 4 bytes a number, and room for twice as many.
class Rows {
  constructor(wide) {
    this.wide = wide;
    this.length = 0;
    this.numbers = new Int32Array(wide * 64);
  }
  push(...row) {
    const from = this.length * this.wide;
    if (from + this.wide > this.numbers.length) {
      const more = new Int32Array(this.numbers.length * 2);
      more.set(this.numbers);
      this.numbers = more;
    }
    this.numbers.set(row, from);
    this.length++;
  }
  at(i, column) { return this.numbers[i * this.wide + column]; }
  row(i) { return this.numbers.subarray(i * this.wide, (i + 1) * this.wide); }
  // The last row whose first number is not above x, or -1.
  upTo(x) { return countUpTo(this.length, i => this.at(i, 0), x) - 1; }
}

// The states of a service: a row for each record that changed one, the first for the state before all.
class Lane extends Rows {
  constructor() { super(6); }
  change(i) {
    const [record, endpoint, state, partner, level, ticks] = this.row(i);
    return {record, endpoint, state, partner, level, ticks};
  }
  // The state after record k.
  after(k) { return this.change(this.upTo(k)); }
  // Whether rows i and j look alike in a lane.
  isAlike(i, j) { return [1, 2, 3].every(column => this.at(i, column) === this.at(j, column)); }
}

// Words, each once, by a number from 1 on. 0 is no word.
class Words {
  constructor() {
    this.words = [\"\"];
    this.numbers = new Map();
  }
  number(word) {
    if (!this.numbers.has(word)) this.numbers.set(word, this.words.push(word) - 1);
    return this.numbers.get(word);
  }
  word(number) { return this.words[number]; }
}

const text = $(\"data\").textContent;
const firstRow = text.indexOf(\"\\n\") + 1, lastLine = text.lastIndexOf(\"\\n\", text.length - 2) + 1;
const head = JSON.parse(text.slice(0, firstRow)), tail = JSON.parse(text.slice(lastLine));
// Where the rows end: between them and the last line stands a line for each range of a sweep, if the page has one.
let rowsEnd = lastLine;
for (let above = lineAbove(rowsEnd); text.startsWith('{\"same\"', above); above = lineAbove(above)) rowsEnd = above;
function lineAbove(at) { return text.lastIndexOf(\"\\n\", at - 2) + 1; }
// How many records come before the first row, how many there are with these, and how many services.
const base = head.first, total = base + tail.records, N = head.services.length;

const starts = new Uint32Array(total + 2);  // where the row of record k begins in the text
const flags = new Uint8Array(total + 2), events = new Uint8Array(total + 2);
const subjects = new Int8Array(total + 2).fill(-1);  // the slot that a record is about
const labels = new Uint16Array(total + 2), labelWords = new Words();  // of a return, what it did
const arrows = new Rows(5);  // record, kind, slot of the sender or -1, slot of the receiver, type
const bytes = new Rows(2);   // record, byte for the console
const queueChanges = new Rows(1), waitChanges = new Rows(1);
const lanes = head.start.map(state => {
  const lane = new Lane();
  lane.push(base, ...state.slice(1, 6));
  return lane;
});
queueChanges.push(base);
waitChanges.push(base);
let loaded = base, readTo = firstRow;  // up to which record, and up to where in the text, rows were read

// What a process did before it came back, by the record's own line: the word of its trap or kernel call, in
// brackets if it was killed before that was done; or how its steps ended.
function deedOf(line) {
  const [what, ...more] = line.slice(line.indexOf(\": \") + 2).split(\", \");
  const [, , ended, ...call] = what.split(\" \");
  if (ended !== \"trap\") return [ended, ...call].join(\" \");
  const isDoomed = more.at(-1) === \"doomed\", asked = isDoomed ? more.slice(0, -1) : more;
  const word = asked.length ? asked[0].split(\" \", 1)[0] : call[0];
  return isDoomed ? `(${word})` : word;
}

// Notes a service's change of state, and returns what it shows: a death, a new process.
function noteChange(k, [slot, ...state]) {
  const lane = lanes[slot], before = lane.change(lane.length - 1);
  lane.push(k, ...state.slice(0, 5));
  const after = lane.change(lane.length - 1);
  return (isDown(after.state) && !isDown(before.state) ? DEATH : 0) |
      (after.endpoint !== before.endpoint ? RESPAWN : 0);
}

function noteRow(k, row) {
  events[k] = row.e;
  if (row.s !== undefined) subjects[k] = row.s;
  if (row.e === EventKind.BACK) labels[k] = labelWords.number(deedOf(row.t.split(\"\\n\", 1)[0]));
  let shown = row.x ? WRONG : 0;
  for (const change of row.c || []) shown |= noteChange(k, change);
  for (const [kind, from, to, type] of row.d || []) {
    shown |= kind === ArrowKind.WAITING ? PENDING : MESSAGE;
    arrows.push(k, kind, from, to, type);
  }
  if (row.q) queueChanges.push(k);
  if (row.w) waitChanges.push(k);
  if (row.b !== undefined) {
    shown |= CONSOLE;
    bytes.push(k, row.b);
  }
  flags[k] = shown;
}

// Reads rows for at most so many milliseconds. Returns whether all are read.
function load(limit) {
  const until = performance.now() + limit;
  while (readTo < rowsEnd) {
    const end = text.indexOf(\"\\n\", readTo), k = ++loaded;
    starts[k] = readTo;
    noteRow(k, JSON.parse(text.slice(readTo, end)));
    starts[k + 1] = readTo = end + 1;
    if (k % 256 === 0 && performance.now() > until) return false;
  }
  return true;
}

const rowOf = k => JSON.parse(text.slice(starts[k], starts[k + 1]));
const ownLine = k => traceOf(k).split(\"\\n\", 1)[0];
function traceOf(k) {
  if (k === base) return base ? \"after record \" + base : \"boot\";
  return k > loaded ? \"\" : rowOf(k).t;
}

// ---- in words
const sourceName = number => Object.keys(SOURCES).find(name => SOURCES[name] === number);
const nameOf = slot => sourceName(slot) || (head.services[slot] ? head.services[slot].name : \"slot \" + slot);
const partnerName = endpoint =>
    endpoint === ANY ? \"any\" : sourceName(endpoint) || nameOf(slotOf(endpoint)) + \" \" + endpoint;
function doing({state, partner}) {
  switch (state) {
    case State.OUT:
    case State.DOOMED: return STATE_WORDS[state] + \" on processor \" + partner;
    case State.FAULTED: return STATE_WORDS[state] + \" \" + partner;
    case State.SENDING: return \"sending to \" + partnerName(partner);
    case State.RECEIVING: return \"receiving from \" + partnerName(partner);
    case State.CALLING:
    case State.AWAITING: return STATE_WORDS[state] + \" \" + partnerName(partner);
    default: return STATE_WORDS[state];
  }
}
// Whether a process waits for one other process.
const waitsForOne = ({state, partner}) => state === State.SENDING || state === State.CALLING ||
    state === State.AWAITING || state === State.RECEIVING && partner !== ANY && partner >= 0;

// ---- what is in view
// A record has a column px wide, and its line is at the column's middle. first is the record at the left edge,
// which may be broken.

const LANE = 46, NUMBERS = 22, OUTSIDE = 30, STRIP = 22, CONSOLE_LANE = 26;
const READABLE = 28, WIDEST = 120;  // pixels of a column
const DENSE = 3;  // below this a column is too narrow for a bar of its own
const strip = tail.sweep ? STRIP : 0, outsideMiddle = NUMBERS + strip + 15;
const TALL = NUMBERS + strip + OUTSIDE + N * LANE + CONSOLE_LANE;
let selected = base, px = READABLE, first = 0, width = 800;
let focus = -1;  // the slot whose records are gone through, or -1 for all
let hits = null, hitSet = null;  // what a search has found, or nothing was searched

const laneTop = slot => NUMBERS + strip + OUTSIDE + slot * LANE, laneMiddle = slot => laneTop(slot) + 17;
const leftOf = k => (k - first) * px, middleOf = k => leftOf(k) + px / 2;

function svg(name, attributes, content) {
  const made = document.createElementNS(\"http://www.w3.org/2000/svg\", name);
  for (const it in attributes) made.setAttribute(it, attributes[it]);
  if (content !== undefined) made.textContent = content;
  return made;
}
function html(name, cls, content) {
  const made = document.createElement(name);
  if (cls) made.className = cls;
  if (content !== undefined) made.textContent = content;
  return made;
}
function tall(name, cls, height, ...inside) {
  const made = html(name, cls);
  made.style.height = height + \"px\";
  made.append(...inside);
  return made;
}
const isDark = () => {
  const chosen = document.documentElement.dataset.theme;
  return chosen ? chosen === \"dark\" : matchMedia(\"(prefers-color-scheme: dark)\").matches;
};
const ink = name => getComputedStyle(document.documentElement).getPropertyValue(name).trim();
// A canvas's pen, for a canvas of so many pixels of the page.
function penOf(canvas, wide, high) {
  const ratio = devicePixelRatio || 1;
  canvas.width = wide * ratio;
  canvas.height = high * ratio;
  const pen = canvas.getContext(\"2d\");
  pen.scale(ratio, ratio);
  return pen;
}

// ---- the lanes: what is seen of the records from a to b
// What a bar is shows without its colour: its height and its strokes tell the state too.

const NUMBER_STEPS = [1, 2, 5].flatMap(n => [n, 10 * n, 100 * n, 1e3 * n, 1e4 * n, 1e5 * n]).sort((x, y) => x - y);

function barHeight(state) {
  if (isOut(state)) return 20;
  return state === State.RECEIVING ? 4 : 10;
}
// Strokes of those that wait for a process: up for one that awaits an answer, down for one that sends.
function strokes(state, from, to, y) {
  let path = \"\";
  for (let x = from; x < to; x += 7)
    path += state === State.AWAITING ? `M${x} ${y + 5}l5 -10` : `M${x} ${y - 5}l5 10`;
  return path;
}
// Whether words fit into so many pixels.
const fits = (words, wide) => words.length * 6.1 <= wide;
const hasStrokes = state => state === State.SENDING || state === State.CALLING || state === State.AWAITING;

function drawBar(into, slot, from, to, {state, partner}) {
  const y = laneMiddle(slot), wide = Math.max(0.5, to - from), high = barHeight(state);
  if (isDown(state)) {
    const words = doing({state, partner});
    if (fits(words, wide - 16)) into.append(svg(\"text\", {x: from + 12, y: y + 4, class: \"num\"}, words));
    return;
  }
  into.append(svg(\"rect\", {x: from, y: y - high / 2, width: wide, height: high, class: \"s\" + state}));
  if (state === State.CALLING) into.append(svg(\"rect\", {x: from, y, width: wide, height: high / 2, class: \"s4b\"}));
  const path = hasStrokes(state) && px >= 4 ? strokes(state, from + 4, to - 2, y) : \"\";
  if (path) into.append(svg(\"path\", {d: path, class: \"hatch\"}));
  if (isOut(state) && wide >= 12)
    into.append(svg(\"text\", {x: from + wide / 2, y: y + 4, \"text-anchor\": \"middle\", class: \"in1\"}, partner));
}

// A service's bars, one for changes in a row that look alike.
function drawBars(into, slot, a, b, wide) {
  const lane = lanes[slot];
  for (let i = Math.max(0, lane.upTo(a - 1)), next; i < lane.length && lane.at(i, 0) <= b; i = next) {
    next = i + 1;
    while (next < lane.length && lane.at(next, 0) <= b + 1 && lane.isAlike(i, next)) next++;
    const from = Math.max(-2, middleOf(lane.at(i, 0)));
    const to = next < lane.length ? Math.min(wide + 2, middleOf(lane.at(next, 0))) :
                                    Math.min(wide, middleOf(loaded) + px / 2);
    drawBar(into, slot, from, to, lane.change(i));
  }
}

function drawArrow(into, i) {
  const [k, kind, from, to, type] = arrows.row(i), x = middleOf(k);
  if (from === to) return;
  const y0 = from < 0 ? outsideMiddle : laneMiddle(from), y1 = laneMiddle(to);
  const down = y1 >= y0 ? 1 : -1, tip = y1 - down * 10, isMessage = kind === ArrowKind.MESSAGE;
  into.append(
      svg(\"line\", {x1: x, y1: y0, x2: x, y2: tip, class: isMessage ? \"msg\" : \"msg note\"}),
      svg(\"circle\", {cx: x, cy: y0, r: 3, class: \"head\"}));
  if (kind === ArrowKind.WAITING) into.append(svg(\"circle\", {cx: x, cy: y1 - down * 6, r: 4, class: \"open\"}));
  else {
    const d = `M${x - 5} ${tip - down * 2}L${x} ${y1 - down}L${x + 5} ${tip - down * 2}`;
    into.append(svg(\"path\", {d, class: isMessage ? \"head\" : \"open\"}));
  }
  if (type && isMessage && px >= 16)
    into.append(svg(\"text\", {x: x + 5, y: (down > 0 ? y1 : y0) - 12, class: \"halo\"}, type >>> 0));
}

// A death, whose cause is written where it has room until the service's next change.
function drawDeath(into, k, slot, state, cause, room) {
  const x = middleOf(k), y = laneMiddle(slot), r = px < 8 ? 4 : 8, killer = subjects[k];
  const y0 = events[k] === EventKind.KILL ? outsideMiddle : killer >= 0 ? laneMiddle(killer) : y;
  if (y0 !== y) into.append(svg(\"line\", {x1: x, x2: x, y1: y0, y2: y, class: \"death\"}));
  into.append(svg(
      \"path\", {d: `M${x - r} ${y - r}l${2 * r} ${2 * r}M${x - r} ${y + r}l${2 * r} ${-2 * r}`, class: \"death\"}));
  const words = {[State.EXITED]: \"exit\", [State.KILLED]: \"kill\", [State.FAULTED]: \"fault \" + cause}[state];
  if (fits(words, room)) into.append(svg(\"text\", {x: x + 10, y: y - 8, class: \"bad halo\"}, words));
}
function drawRespawn(into, k, slot, endpoint) {
  const x = middleOf(k), y = laneMiddle(slot), r = px < 8 ? 4 : 8;
  into.append(
      svg(\"line\", {x1: x, x2: x, y1: outsideMiddle, y2: y - r, class: \"respawn\"}),
      svg(\"path\", {d: `M${x} ${y - r}L${x + r} ${y}L${x} ${y + r}L${x - r} ${y}Z`, class: \"respawnmark\"}));
  if (px >= 16) into.append(svg(\"text\", {x: x + 10, y: y - 10, class: \"good halo\"}, endpoint));
}
function drawLives(into, k) {
  lanes.forEach((lane, slot) => {
    const i = lane.upTo(k);
    if (i === 0 || lane.at(i, 0) !== k) return;
    const now = lane.change(i), before = lane.change(i - 1), isLast = i + 1 === lane.length;
    const room = px < 16 ? 0 : isLast ? Infinity : (lane.at(i + 1, 0) - k) * px;
    if (isDown(now.state) && !isDown(before.state)) drawDeath(into, k, slot, now.state, now.partner, room);
    if (now.endpoint !== before.endpoint) drawRespawn(into, k, slot, now.endpoint);
  });
}

// Under a lane, what a return did. A word that would reach into the last one is left out if columns are narrow.
function drawLabel(into, k, usedTo) {
  const slot = subjects[k], isWrong = flags[k] & WRONG && events[k] === EventKind.BACK;
  if (!labels[k] || px < 14 || slot < 0) return;
  const x = middleOf(k), word = (isWrong ? \"! \" : \"\") + labelWords.word(labels[k]);
  if (!fits(word, x - usedTo[slot] - 4) && px < 56) return;
  const y = laneTop(slot) + LANE - 6;
  into.append(svg(\"text\", {x: x - 2, y, \"text-anchor\": \"end\", class: flags[k] & WRONG ? \"bad\" : \"num\"}, word));
  usedTo[slot] = x;
}

// In the lane of what comes from outside, an interrupt, a tick, a kill or a respawn.
function drawOutside(into, k) {
  const x = middleOf(k), y = outsideMiddle, event = events[k];
  if (event < EventKind.LINE || px < 5) return;
  if (event === EventKind.LINE) into.append(svg(\"path\", {d: `M${x - 5} ${y - 6}h10l-5 9z`, class: \"head\"}));
  else if (event === EventKind.TICK) into.append(svg(\"line\", {x1: x, x2: x, y1: y - 8, y2: y + 6, class: \"msg\"}));
  else into.append(svg(\"circle\", {cx: x, cy: y, r: 3, class: event === EventKind.KILL ? \"death\" : \"respawnmark\"}));
  if (px >= 16 && (event === EventKind.LINE || event === EventKind.TICK))
    into.append(svg(\"text\", {x: x + 6, y: y + 4, class: \"num halo\"}, EVENT_WORDS[event]));
}

// A record's column, with its trace for a pointer that rests there.
function drawColumn(into, k) {
  const cell = svg(\"rect\", {x: leftOf(k), y: 0, width: px, height: TALL, class: \"cell\"});
  if (px >= 14) cell.append(svg(\"title\", {}, traceOf(k)));
  into.append(cell);
}

function drawNumbers(into, a, b) {
  const every = NUMBER_STEPS.find(n => n * px >= 46) || 1e6;
  for (let k = Math.ceil(a / every) * every; k <= b; k += every)
    into.append(svg(\"text\", {x: middleOf(k), y: 14, \"text-anchor\": \"middle\", class: \"num\"}, k));
}
const isPrintable = byte => byte > 32 && byte < 127;
function drawBytes(into, a, b) {
  for (let i = bytes.upTo(a - 1) + 1; i < bytes.length && bytes.at(i, 0) <= b; i++) {
    const byte = bytes.at(i, 1);
    const shown = isPrintable(byte) ? String.fromCharCode(byte) : byte.toString(16).toUpperCase().padStart(2, \"0\");
    into.append(svg(\"text\", {x: middleOf(bytes.at(i, 0)), y: laneTop(N) + 17, \"text-anchor\": \"middle\"}, shown));
  }
}
function drawRecords(into, a, b, isOnPaper) {
  const usedTo = new Array(N).fill(-Infinity);
  for (let k = Math.max(base + 1, a); k <= b; k++) {
    if (flags[k] & (DEATH | RESPAWN)) drawLives(into, k);
    drawLabel(into, k, usedTo);
    drawOutside(into, k);
    if (hitSet && hitSet.has(k)) into.append(svg(\"path\", {d: `M${middleOf(k) - 4} 17h8l-4 5z`, class: \"hitmark\"}));
    if (px >= 6 && !isOnPaper) drawColumn(into, k);
  }
}
function drawSelection(into, cls, inset) {
  const y = inset, height = TALL - 2 * inset;
  into.append(svg(\"rect\", {x: leftOf(selected), y, width: Math.max(px, 3), height, class: cls}));
}

function draw(picture, a, b, wide, isOnPaper) {
  const into = document.createDocumentFragment();
  if (!isOnPaper) drawSelection(into, \"sel\", 0);
  drawNumbers(into, a, b);
  for (let slot = 0; slot <= N; slot++)
    into.append(svg(\"line\", {x1: 0, x2: wide, y1: laneTop(slot), y2: laneTop(slot), class: \"rule\"}));
  if (strip) drawSweep(into, a, b, wide);
  if (px >= DENSE) {
    for (let slot = 0; slot < N; slot++) drawBars(into, slot, a, b, wide);
    for (let i = arrows.upTo(a - 1) + 1; i < arrows.length && arrows.at(i, 0) <= b; i++) drawArrow(into, i);
    drawRecords(into, a, b, isOnPaper);
  }
  if (px >= 7) drawBytes(into, a, b);
  if (!isOnPaper) drawSelection(into, \"selline\", 0.75);
  picture.replaceChildren(into);
}

// ---- the lanes zoomed out: for each pixel a service's share of each state, in the records of that pixel
const SHARES = [
  [State.OUT, \"--out\"], [State.DOOMED, \"--doomed\"], [State.READY, \"--ready\"], [State.SENDING, \"--sending\"],
  [State.CALLING, \"--sending\"], [State.AWAITING, \"--awaiting\"], [State.RECEIVING, \"--receiving\"]
];

// The shares of the states of a lane from place a to b, which is part of [a, b); i is the lane's row at a.
// Returns the row at b, and whether the service died on the way.
function addShares(share, lane, i, a, b) {
  let from = a, hasDied = false;
  for (; i + 1 < lane.length && lane.at(i + 1, 0) < b; i++) {
    share[lane.at(i, 2)] += Math.max(0, lane.at(i + 1, 0) - from);
    from = Math.max(from, lane.at(i + 1, 0));
    hasDied ||= isDown(lane.at(i + 1, 2));
  }
  share[lane.at(i, 2)] += Math.max(0, b - from);
  return [i, hasDied];
}
function drawShares(pen, slot, wide, inks, red) {
  const lane = lanes[slot], top = laneTop(slot) + 4, high = LANE - 8, share = new Float64Array(10);
  let i = Math.max(0, lane.upTo(first)), hasDied;
  for (let x = 0; x < wide; x++) {
    const a = first + x / px, b = Math.min(first + (x + 1) / px, total + 1);
    if (a > loaded) return;
    share.fill(0);
    [i, hasDied] = addShares(share, lane, i, a, b);
    let y = top + high;
    for (const [state, colour] of inks) {
      const part = high * share[state] / (b - a);
      if (!part) continue;
      y -= part;
      pen.fillStyle = colour;
      pen.fillRect(x, y, 1, part);
    }
    if (!hasDied) continue;
    pen.fillStyle = red;
    pen.fillRect(x - 1, top - 3, 3, high + 6);
  }
}
let shownShares = \"\";  // what the canvas shows now, so that it is drawn again only if that has changed
function drawDense(wide) {
  const canvas = $(\"dense\");
  canvas.hidden = $(\"shares\").hidden = px >= DENSE;
  const asked = [first, px, wide, devicePixelRatio, loaded, isDark()].join();
  if (canvas.hidden || asked === shownShares) return;
  shownShares = asked;
  const pen = penOf(canvas, wide, TALL), inks = SHARES.map(([state, name]) => [state, ink(name)]);
  for (let slot = 0; slot < N; slot++) drawShares(pen, slot, wide, inks, ink(\"--death\"));
}

// ---- the overview: the whole run in forty pixels, and which part of it is in view
// Messages are a profile, the console stands below it, then come deaths, respawns and hits as strokes.

const OVERVIEW = 40;
const ground = document.createElement(\"canvas\");  // all but what is in view
let shownGround = \"\";

// One stroke for each pixel that has a record of these.
function drawStrokes(pen, colour, count, recordAt, xOf, y, wide, high) {
  pen.fillStyle = colour;
  for (let i = 0, last = -1; i < count; i++) {
    const x = xOf(recordAt(i)) | 0;
    if (x !== last) pen.fillRect(x, y, wide, high);
    last = x;
  }
}
function drawProfile(pen, xOf, wide) {
  const messages = new Uint32Array(wide + 1);
  for (let i = 0; i < arrows.length; i++) messages[xOf(arrows.at(i, 0)) | 0]++;
  const most = messages.reduce((x, y) => Math.max(x, y), 1);
  pen.fillStyle = ink(\"--receiving\");
  messages.forEach((count, x) => pen.fillRect(x, 24 - 16 * count / most, 1, 16 * count / most));
}
function recordsWith(flag, without = 0) {
  const found = [];
  for (let k = base + 1; k <= loaded; k++)
    if (flags[k] & flag && !(flags[k] & without)) found.push(k);
  return found;
}
function drawGround(xOf, wide) {
  const pen = penOf(ground, wide, OVERVIEW), deaths = recordsWith(DEATH), respawns = recordsWith(RESPAWN, DEATH);
  drawProfile(pen, xOf, wide);
  drawStrokes(pen, ink(\"--out\"), bytes.length, i => bytes.at(i, 0), xOf, 26, 1.5, 4);
  drawStrokes(pen, ink(\"--respawn\"), respawns.length, i => respawns[i], xOf, 12, 1.5, 13);
  drawStrokes(pen, ink(\"--death\"), deaths.length, i => deaths[i], xOf, 0, 2.5, 25);
  if (hits) drawStrokes(pen, ink(\"--hit\"), hits.length, i => hits[i], xOf, 32, 2, 8);
}
function overview() {
  const canvas = $(\"overview\"), wide = canvas.clientWidth;
  if (!wide) return;
  const xOf = k => (k - base) / Math.max(1, total - base) * (wide - 2) + 1;
  const asked = [wide, devicePixelRatio, loaded, isDark(), hits && hits.length, searched].join();
  if (asked !== shownGround) drawGround(xOf, wide);
  shownGround = asked;
  const pen = penOf(canvas, wide, OVERVIEW), last = Math.min(total, first + width / px);
  pen.fillStyle = ink(\"--mark\");
  pen.fillRect(xOf(first), 0, Math.max(3, xOf(last) - xOf(first)), OVERVIEW);
  pen.drawImage(ground, 0, 0, wide, OVERVIEW);
  pen.fillStyle = ink(\"--ink\");
  pen.fillRect(xOf(selected) - 1, 0, 2, OVERVIEW);
}
const recordInOverview = x =>
    Math.round((x - 1) / ($(\"overview\").clientWidth - 2) * (total - base)) + base;

// ---- the sweep: a strip of positions, if the page has one
// Position K is the one after record K, and stands in K's column. Each way to end has a letter; a position that
// ends otherwise than without the fault is filled and ticked.

const blocks = readBlocks(), ends = [...new Set(blocks.map(block => block.text))];
// Positions in a row with the same end are a block. Its ranges are of positions that all end as without the fault, or all
// otherwise; a line has one of them, up to the next line's first position.
function readBlocks() {
  const lines = text.slice(rowsEnd, lastLine).split(\"\\n\").slice(0, -1).map(line => JSON.parse(line)), made = [];
  lines.forEach(({from, same, t}, i) => {
    if (t !== undefined) made.push({from, text: t, ranges: []});
    const next = i + 1 < lines.length ? lines[i + 1].from : tail.sweep.from + tail.sweep.positions;
    const block = made.at(-1);
    block.to = next - 1;
    block.ranges.push({from, to: block.to, same});
  });
  return made;
}
const endOf = block => ends.indexOf(block.text);
const blockOf = k => blocks.find(block => block.from <= k && k <= block.to);
const letterOf = end => end < 26 ? String.fromCharCode(65 + end) : String(end + 1);

function drawPositions(into, from, until, isSame, end, wide) {
  const x = leftOf(from), width = Math.max(0.5, (until - from) * px), y = NUMBERS;
  into.append(svg(\"rect\", {x, y: y + 2, width, height: 17, class: isSame ? \"same\" : \"other t\" + end % 4}));
  if (isSame || px < DENSE) return;
  let path = \"\";
  for (let at = Math.max(0, x) + 3; at < Math.min(wide, leftOf(until)) - 2; at += 6) path += `M${at} ${y + 19}l4 -4`;
  into.append(svg(\"path\", {d: path, class: \"tick\"}));
}
function drawBlock(into, block, a, b, wide) {
  const end = endOf(block);
  for (const range of block.ranges) {
    const from = Math.max(range.from, Math.floor(a)), until = Math.floor(Math.min(range.to, b)) + 1;
    if (from < until) drawPositions(into, from, until, range.same, end, wide);
  }
  const left = leftOf(block.from), from = Math.max(0, left), until = leftOf(block.to + 1), y = NUMBERS;
  if (block.from && until - from > 5)
    into.append(svg(\"line\", {x1: left, x2: left, y1: y, y2: y + 21, class: \"selline\"}));
  if (until - from <= 12) return;
  const x = (from + Math.min(wide, until)) / 2;
  into.append(svg(\"text\", {x, y: y + 14, \"text-anchor\": \"middle\", class: \"in\"}, letterOf(end)));
}
function drawSweep(into, a, b, wide) {
  for (const block of blocks)
    if (block.to >= a - 1 && block.from <= b + 1) drawBlock(into, block, a, b, wide);
}

function rangeOf({from, to}) { return from === to ? \"position \" + from : \"the positions \" + from + \" to \" + to; }
function showSweep() {
  const block = blockOf(selected), box = $(\"sweep\");
  $(\"sweeppanel\").hidden = false;
  if (!block) return box.replaceChildren(html(\"p\", \"\", \"no position here\"));
  const range = block.ranges.find(it => selected <= it.to);
  const how = range.same ? \"as without the fault.\" : \"OTHERWISE than without the fault.\";
  const others = blocks.filter(it => it.text === block.text && it !== block).map(it => it.from + \" to \" + it.to);
  const alike = blocks.flatMap(it => it.ranges).filter(it => it.same), {fault, positions} = tail.sweep;
  const same = alike.reduce((sum, it) => sum + it.to - it.from + 1, 0);
  const lines = [
    html(\"p\", \"\", `fault: ${fault}. At position ${selected} (after record ${selected}) it ends ${how}`),
    html(\"p\", \"\", `End ${letterOf(endOf(block))}, of ${rangeOf(block)}:`),
    html(\"pre\", \"\", block.text)
  ];
  if (others.length) lines.push(html(\"p\", \"small\", \"The same end at positions \" + others.join(\", \")));
  lines.push(html(\"p\", \"small\", `${same} of ${positions} positions end as without the fault.`));
  box.replaceChildren(...lines);
}

// ---- the names beside the lanes, and the panels: all about the state after the selected record

function nameRow(service, slot) {
  const state = lanes[slot].after(selected);
  const made = tall(\"div\", \"lane\" + (slot === focus ? \" focus\" : \"\"), LANE);
  made.dataset.slot = slot;
  made.append(html(\"b\", \"\", service.name), \" \", String(state.endpoint), html(\"small\", \"\", doing(state)));
  const {endpoint, level, ticks} = state;
  made.title = `${service.name} ${endpoint}: ${doing(state)}, level ${level}, ${ticks} ticks left`;
  return made;
}
function names() {
  const small = words => html(\"small\", \"\", words);
  $(\"names\").replaceChildren(
      tall(\"div\", \"\", NUMBERS, small(\"record\")), ...(strip ? [tall(\"div\", \"\", strip, small(\"sweep\"))] : []),
      tall(\"div\", \"\", OUTSIDE, small(\"outside\")), ...head.services.map(nameRow),
      tall(\"div\", \"lane\", CONSOLE_LANE, small(\"console\")));
}

// A record's own line in a sentence, from the row's numbers.
function sentenceOf(k) {
  if (k === base)
    return base ? `The page begins after record ${base}.` : \"The machine has booted: all services are ready.\";
  const row = rowOf(k), who = row.s === undefined ? \"\" : nameOf(row.s);
  const actor = row.a < head.cpus ? \"Processor \" + row.a : \"Actor \" + row.a;
  switch (row.e) {
    case EventKind.TAKE: return `${actor} takes ${who}, which may make ${row.n} steps.`;
    case EventKind.BACK: return `${actor} gives ${who} back after ${row.n} steps.`;
    case EventKind.LINE: return `An interrupt comes at line ${row.n}, which is ${who}'s.`;
    case EventKind.TICK: return `The clock ticks: uptime ${row.n}.`;
    case EventKind.KILL: return `${who} is killed from outside.`;
    default: return `${who} is started again, as a new process.`;
  }
}
const BAD_LINE = /result -|answer -|down (kill|fault)|: no process may|is past the/;
function showDeed(k) {
  $(\"gloss\").textContent = sentenceOf(k);
  for (const it of document.querySelectorAll(\".k\")) it.textContent = k;
  $(\"did\").replaceChildren(...traceOf(k).split(\"\\n\").map((line, i) => {
    const cls = (i ? \"rest\" : \"first\") + (BAD_LINE.test(line) ? \" bad\" : \"\");
    return html(\"p\", cls, i ? line.replace(/^\\d+ {3}/, \"\") : line);
  }));
}

function showProcesses(k) {
  const changes = k > base ? rowOf(k).c || [] : [], changed = new Set(changes.map(([slot]) => slot));
  $(\"processes\").tBodies[0].replaceChildren(...head.services.map((service, slot) => {
    const state = lanes[slot].after(k), row = html(\"tr\", changed.has(slot) ? \"changed\" : \"\");
    const name = html(\"th\", \"\", service.name);
    name.scope = \"row\";
    row.append(html(\"td\", \"\", slot), name);
    for (const it of [state.endpoint, doing(state), state.level, state.ticks]) row.append(html(\"td\", \"\", it));
    return row;
  }));
}

// Who waits for whom, up to one who waits for nobody in particular.
function chainFrom(slot, k) {
  const seen = new Set(), parts = [];
  for (;;) {
    const state = lanes[slot].after(k), name = nameOf(slot) + \" \" + state.endpoint;
    if (seen.has(slot)) return [...parts, name + \" (a ring)\"];
    if (!waitsForOne(state)) return [...parts, `${name} (${doing(state)})`];
    seen.add(slot);
    parts.push(name + \" \" + STATE_WORDS[state.state]);
    slot = slotOf(state.partner);
  }
}
function readyLine(queue, k) {
  if (!queue.length) return \"Nobody is ready.\";
  const levels = new Map();
  for (const slot of queue) {
    const {level} = lanes[slot].after(k);
    levels.set(level, [...levels.get(level) || [], nameOf(slot)]);
  }
  const parts = [...levels].map(([level, those]) => `${those.join(\", \")} (level ${level})`);
  return \"Ready, the next one first: \" + parts.join(\"; \");
}
function showQueues(k) {
  const queueAt = queueChanges.at(queueChanges.upTo(k), 0), waitAt = waitChanges.at(waitChanges.upTo(k), 0);
  const queue = queueAt > base ? rowOf(queueAt).q : head.queue, wait = waitAt > base ? rowOf(waitAt).w : head.wait;
  const lines = [html(\"p\", \"\", readyLine(queue, k))];
  if (wait.length) {
    const parts = wait.map(slot => nameOf(slot) + \" to \" + partnerName(lanes[slot].after(k).partner));
    lines.push(html(\"p\", \"\", \"Wait to send, in order: \" + parts.join(\", \")));
  }
  const waiting = head.services.map((_, slot) => slot).filter(slot => waitsForOne(lanes[slot].after(k)));
  if (waiting.length) {
    const list = html(\"ul\");
    list.append(...waiting.map(slot => html(\"li\", \"\", chainFrom(slot, k).join(\" \\u2192 \"))));
    lines.push(html(\"p\", \"\", \"Who waits for whom:\"), list);
  } else lines.push(html(\"p\", \"\", \"Nobody waits for one other process.\"));
  $(\"queues\").replaceChildren(...lines);
}

// The last 4,096 bytes; what has no character is shown by its number, and a byte of this record is marked.
const LAST_BYTES = 4096;
function consoleByte(byte, isNew) {
  const isPlain = byte === 10 || byte === 32 || isPrintable(byte);
  if (isPlain && !isNew) return String.fromCharCode(byte);
  const shown = byte === 10 ? \"\\u23ce\\n\" : isPlain ? String.fromCharCode(byte) :
                                                     \"\\\\x\" + byte.toString(16).padStart(2, \"0\");
  return html(\"span\", (isNew ? \"new\" : \"\") + (isPlain ? \"\" : \" odd\"), shown);
}
function showConsole(k) {
  const box = $(\"console\"), last = bytes.upTo(k), parts = [];
  for (let i = Math.max(0, last - LAST_BYTES + 1); i <= last; i++)
    parts.push(consoleByte(bytes.at(i, 1), bytes.at(i, 0) === k));
  if (last < 0) parts.push(html(\"span\", \"small\", base ? \"nothing since record \" + base : \"nothing yet\"));
  box.replaceChildren(...parts);
  box.normalize();
  box.scrollTop = box.scrollHeight;
}

function panels() {
  showDeed(selected);
  showProcesses(selected);
  showQueues(selected);
  showConsole(selected);
  if (strip) showSweep();
}

// ---- the list of records, of which only the rows in view exist
// A browser has no box higher than some 30 million pixels: beyond MOST the list is scaled.
const LINE = 20, MOST = 8e6;
const listed = () => $(\"onlyhits\").checked && hits ? hits : null;

function listRow(k, i, count, top) {
  const made = html(\"div\", \"row\" + (hitSet && hitSet.has(k) ? \" hit\" : \"\"), k <= loaded ? ownLine(k) : \"\");
  made.style.top = top + \"px\";
  made.id = \"r\" + k;
  made.dataset.k = k;
  made.setAttribute(\"role\", \"option\");
  made.setAttribute(\"aria-selected\", k === selected);
  made.setAttribute(\"aria-setsize\", count);
  made.setAttribute(\"aria-posinset\", i + 1);
  return made;
}
function showList(isFollowing) {
  const box = $(\"list\"), only = listed(), count = only ? only.length : total - base;
  const high = Math.min(MOST, count * LINE), scale = Math.max(1, count * LINE / MOST);
  $(\"spacer\").style.height = high + \"px\";
  if (isFollowing) {
    const i = only ? Math.max(0, countUpTo(count, j => only[j], selected) - 1) : selected - base - 1;
    const y = i * LINE / scale;
    if (y < box.scrollTop || y > box.scrollTop + box.clientHeight - LINE)
      box.scrollTop = Math.max(0, y - box.clientHeight / 2);
  }
  const from = Math.max(0, Math.floor(box.scrollTop * scale / LINE)), rows = [];
  for (let i = from; i < Math.min(count, from + Math.ceil(box.clientHeight / LINE) + 1); i++) {
    const top = scale === 1 ? i * LINE : box.scrollTop + (i - from) * LINE;
    rows.push(listRow(only ? only[i] : base + i + 1, i, count, top));
  }
  for (const row of box.querySelectorAll(\".row\")) row.remove();
  box.append(...rows);
  if ($(\"r\" + selected)) box.setAttribute(\"aria-activedescendant\", \"r\" + selected);
  else box.removeAttribute(\"aria-activedescendant\");
}

// ---- search: words that all have to fit; a record is found if it fits each

const KINDS = {death: DEATH, respawn: RESPAWN, error: WRONG, console: CONSOLE, message: MESSAGE, pending: PENDING};
let searched = null, lowered = \"\";  // the words of the last search; the text up to readTo in small letters

// Which records have a word in their trace: the whole text is looked through, and a row is parsed only where the
// word stands in it, to be sure that it stands in its trace.
function markRecordsWith(word) {
  if (lowered.length !== readTo) lowered = text.slice(0, readTo).toLowerCase();
  const marks = new Uint8Array(loaded + 2), written = JSON.stringify(word).slice(1, -1).replace(/</g, \"\\\\u003c\");
  let at = lowered.indexOf(written, firstRow);
  while (at >= 0) {
    const k = base + countUpTo(loaded - base, i => starts[base + 1 + i], at);
    if (traceOf(k).toLowerCase().includes(word)) marks[k] = 1;
    if (k === loaded) break;
    at = lowered.indexOf(written, starts[k + 1]);
  }
  return marks;
}
function hasArrow(k, column, wanted) {
  for (let i = arrows.upTo(k); i >= 0 && arrows.at(i, 0) === k; i--)
    if (arrows.at(i, column) === wanted) return true;
  return false;
}
const isOfKind = word => KINDS[word] ? k => flags[k] & KINDS[word] : k => EVENT_WORDS[events[k]] === word;
function isOfCall(word) {
  const wanted = word.toLowerCase();
  return k => labels[k] && labelWords.word(labels[k]).replace(/[()]/g, \"\").toLowerCase() === wanted;
}
// What a word of a search asks of a record.
function testOf(word) {
  const [, what, value] = /^(is|from|to|type|service|call):(.+)$/.exec(word) || [];
  const slot = head.services.findIndex(service => service.name === value), place = SOURCES[value] ?? slot;
  switch (what) {
    case \"is\": return isOfKind(value);
    case \"service\": return k => slot >= 0 && subjects[k] === slot;
    case \"call\": return isOfCall(value);
    case \"from\": return k => hasArrow(k, 2, place);
    case \"to\": return k => hasArrow(k, 3, place);
    case \"type\": return k => hasArrow(k, 4, Number(value) | 0);
  }
  const marks = markRecordsWith(word.toLowerCase());
  return k => marks[k] === 1;
}
// The records that were found, or null if no word was given.
function find(query) {
  const tests = query.split(/\\s+/).filter(Boolean).map(testOf), found = [];
  if (!tests.length) return null;
  for (let k = base + 1; k <= loaded; k++)
    if (tests.every(test => test(k))) found.push(k);
  return found;
}
function search() {
  const query = $(\"query\").value, began = performance.now();
  if (searched === query) return;
  searched = query;
  hits = find(query);
  hitSet = hits && new Set(hits);
  window.searchTook = performance.now() - began;
}
// To the next hit, or with -1 to the one before; behind the last one comes the first.
function goToHit(step) {
  search();
  if (!hits || !hits.length) {
    say(hits ? \"none\" : \"\");
    return paint();
  }
  const count = hits.length, upTo = countUpTo(count, i => hits[i], step > 0 ? selected : selected - 1);
  const i = (step > 0 ? upTo : upTo - 1 + count) % count;
  say(`hit ${i + 1} of ${count}`);
  select(hits[i]);
}

// ---- painting: at most once a frame

let asked = null;  // what the next frame paints: {isFollowing}, or nothing
function paint(isFollowing = true) {
  const isFirst = !asked;
  asked = {isFollowing: isFollowing || asked !== null && asked.isFollowing};
  if (isFirst) requestAnimationFrame(() => {
    const now = asked;
    asked = null;
    paintNow(now.isFollowing);
  });
}
// With isFollowing the list of records goes to the selected one.
function paintNow(isFollowing) {
  const picture = $(\"picture\");
  width = $(\"stage\").clientWidth;
  first = Math.min(Math.max(base, first), Math.max(base, total + 1 - width / px));
  picture.setAttribute(\"height\", TALL);
  picture.setAttribute(\"viewBox\", `0 0 ${width} ${TALL}`);
  drawDense(width);
  draw(picture, Math.floor(first), Math.min(loaded, Math.ceil(first + width / px)), width, false);
  names();
  overview();
  panels();
  showList(isFollowing);
  tellPlace();
}
// The selected record in the fields, and for a screen reader.
function tellPlace() {
  const stage = $(\"stage\"), slider = $(\"slider\"), last = Math.min(total, Math.ceil(first + width / px));
  for (const it of [slider, $(\"number\")]) Object.assign(it, {min: base, max: total, value: selected});
  const words = selected > base ? \"record \" + ownLine(selected) : \"before the first record\";
  slider.setAttribute(\"aria-valuetext\", words);
  stage.setAttribute(\"aria-valuetext\", words);
  stage.setAttribute(\"aria-valuemin\", base);
  stage.setAttribute(\"aria-valuemax\", total);
  stage.setAttribute(\"aria-valuenow\", selected);
  stage.setAttribute(\"aria-label\", `Lanes of ${N} services, records ${Math.floor(first)} to ${last}`);
  $(\"said\").textContent = traceOf(selected).replace(/\\n\\d+ {3}/g, \". \");
}

// ---- what a person does

// Selects record k, or the nearest that is read; keepsView leaves what is in view as it is.
function select(k, keepsView) {
  selected = Math.min(Math.max(base, k | 0), loaded);
  const room = width / px;
  if (!keepsView && selected < first + 0.1 * room) first = selected - 0.3 * room;
  else if (!keepsView && selected > first + 0.9 * room) first = selected - 0.7 * room;
  history.replaceState(null, \"\", \"#\" + selected);
  paint();
}
// Makes columns larger; what is at x stays where it is, or else the selected record, if it is in view.
function zoom(factor, x) {
  const middle = middleOf(selected), isInView = middle >= 0 && middle <= width;
  const anchor = x ?? (isInView ? middle : width / 2), k = first + anchor / px;
  px = Math.min(WIDEST, Math.max(Math.min(1, width / (total - base + 1)), px * factor));
  first = k - anchor / px;
  paint(false);
}
function show(columns, from) {
  px = columns;
  first = from();
  paint(false);
}
function say(words) { $(\"found\").textContent = words; }

// The next record for which a test holds, on or back; what there is none of is said.
function goTo(step, test, what) {
  for (let k = selected + step; k > base && k <= loaded; k += step)
    if (test(k)) return select(k);
  say(step > 0 ? `no further ${what} there` : `no ${what} above there`);
}
const goToFlag = (step, flag, what) => goTo(step, k => flags[k] & flag, what);
const isOfFocus = k => focus < 0 || subjects[k] === focus || lanes[focus].at(lanes[focus].upTo(k), 0) === k;
const screenful = () => Math.max(1, Math.floor(width / px * 0.8));

// The next message of the pair of the arrow at the selected record, else of the one before it.
function goToPair(step) {
  const i = arrows.upTo(selected);
  if (!arrows.length || i < 0 && step < 0) return say(\"no message there\");
  if (i < 0) return select(arrows.at(0, 0));
  const [record, , a, b] = arrows.row(i), those = nameOf(a) + \" and \" + nameOf(b);
  if (record !== selected && step < 0) return select(record);
  for (let j = i + step; j >= 0 && j < arrows.length; j += step) {
    const [k, , from, to] = arrows.row(j);
    if (k === selected || !(from === a && to === b || from === b && to === a)) continue;
    say(those);
    return select(k);
  }
  say(\"no further message of \" + those);
}
function chooseLane(slot) {
  focus = Math.min(N - 1, Math.max(-1, slot));
  say(focus < 0 ? \"all services\" : \"service \" + nameOf(focus));
  paint(false);
}
function goToBlock() {
  const next = blocks.find(block => block.from > selected);
  if (next) select(next.from);
  else if (strip) say(\"no further block there\");
}
function startSearch() {
  $(\"query\").focus();
  $(\"query\").select();
}

// Each act by its name: a key for it, what the help says, and what is done. A button names its act by data-do.
const ACTS = {
  before: [\"ArrowLeft\", \"record before\", () => select(selected - 1)],
  after: [\"ArrowRight\", \"next record\", () => select(selected + 1)],
  pageback: [\"PageUp\", \"a screen back\", () => select(selected - screenful())],
  pagenext: [\"PageDown\", \"a screen on\", () => select(selected + screenful())],
  first: [\"Home\", \"before the first record\", () => select(base)],
  last: [\"End\", \"the last record\", () => select(loaded)],
  laneup: [\"ArrowUp\", \"service above (or all)\", () => chooseLane(focus - 1)],
  lanedown: [\"ArrowDown\", \"service below\", () => chooseLane(focus + 1)],
  ownnext: [\".\", \"next record of the chosen service\", () => goTo(1, isOfFocus, \"record of it\")],
  ownback: [\",\", \"record before of it\", () => goTo(-1, isOfFocus, \"record of it\")],
  pairnext: [\"n\", \"next message of this pair\", () => goToPair(1)],
  pairback: [\"p\", \"message before of this pair\", () => goToPair(-1)],
  death: [\"d\", \"next death\", () => goToFlag(1, DEATH, \"death\")],
  deathback: [\"D\", \"death before\", () => goToFlag(-1, DEATH, \"death\")],
  error: [\"e\", \"next error\", () => goToFlag(1, WRONG, \"error\")],
  errorback: [\"E\", \"error before\", () => goToFlag(-1, WRONG, \"error\")],
  console: [\"c\", \"next console byte\", () => goToFlag(1, CONSOLE, \"console byte\")],
  consoleback: [\"C\", \"console byte before\", () => goToFlag(-1, CONSOLE, \"console byte\")],
  block: [\"b\", \"next block of the sweep\", goToBlock],
  in: [\"+\", \"larger\", () => zoom(1.5)],
  out: [\"-\", \"smaller\", () => zoom(1 / 1.5)],
  fit: [\"0\", \"the whole run\", () => show(width / (total - base + 1), () => base)],
  read: [\"1\", \"readable size\", () => show(READABLE, () => selected - width / px / 2)],
  search: [\"/\", \"search\", startSearch],
  help: [\"?\", \"this help\", () => $(\"help\").showModal()]
};
const act = name => ACTS[name][2]();
const goInList = step => listed() ? goToHit(step) : select(selected + step);

function onKey(event) {
  const at = event.target, isTyping = at.matches(\"input:not([type=range]):not([type=checkbox]), textarea\");
  if (event.key === \"Escape\" && isTyping) return $(\"stage\").focus();
  if (event.ctrlKey || event.altKey || event.metaKey || isTyping || $(\"help\").open) return;
  if (event.key.length === 1 && !$(\"single\").checked) return;
  if (at.matches(\"button\") && (event.key === \" \" || event.key === \"Enter\")) return;
  if (at.id === \"console\" && /^(Arrow(Up|Down)|Page|Home|End)/.test(event.key)) return;
  const inList = at.id === \"list\" && {ArrowUp: -1, ArrowDown: 1}[event.key];
  const found = Object.keys(ACTS).find(name => ACTS[name][0] === event.key);
  if (!inList && !found) return;
  event.preventDefault();
  if (inList) goInList(inList);
  else act(found);
}
addEventListener(\"keydown\", onKey);
addEventListener(\"click\", event => {
  const button = event.target.closest(\"[data-do]\");
  if (button) act(button.dataset.do);
});
addEventListener(\"resize\", () => paint(false));
addEventListener(\"hashchange\", () => select(Number(location.hash.slice(1)) || base));
matchMedia(\"(prefers-color-scheme: dark)\").addEventListener(\"change\", () => paint(false));
$(\"theme\").addEventListener(\"click\", () => {
  document.documentElement.dataset.theme = isDark() ? \"light\" : \"dark\";
  paint(false);
});

$(\"search\").addEventListener(\"submit\", event => {
  event.preventDefault();
  goToHit(1);
});
$(\"hitback\").addEventListener(\"click\", () => goToHit(-1));
$(\"query\").addEventListener(\"keydown\", event => {
  if (event.key !== \"Enter\" || !event.shiftKey) return;
  event.preventDefault();
  goToHit(-1);
});
$(\"onlyhits\").addEventListener(\"change\", () => {
  search();
  $(\"list\").scrollTop = 0;
  showList(true);
});
for (const [id, kind] of [[\"slider\", \"input\"], [\"number\", \"change\"]])
  $(id).addEventListener(kind, event => select(Number(event.target.value)));
$(\"list\").addEventListener(\"scroll\", () => showList(false));
$(\"list\").addEventListener(\"click\", event => {
  const row = event.target.closest(\".row\");
  if (row) select(Number(row.dataset.k));
});
$(\"names\").addEventListener(\"click\", event => {
  const row = event.target.closest(\"[data-slot]\");
  if (row) chooseLane(focus === Number(row.dataset.slot) ? -1 : Number(row.dataset.slot));
});

$(\"overview\").addEventListener(\"pointerdown\", event => {
  $(\"overview\").setPointerCapture(event.pointerId);
  select(recordInOverview(event.offsetX));
});
$(\"overview\").addEventListener(\"pointermove\", event => {
  if (event.buttons) select(recordInOverview(event.offsetX));
});
// On the lanes a pointer that moves takes the view with it, and one that doesn't selects a record.
let drag = null;
const xInStage = event => event.clientX - $(\"stage\").getBoundingClientRect().left;
$(\"stage\").addEventListener(\"pointerdown\", event => { drag = {x: event.clientX, first, hasMoved: false}; });
$(\"stage\").addEventListener(\"pointermove\", event => {
  if (!drag || !event.buttons) return;
  drag.hasMoved ||= Math.abs(event.clientX - drag.x) > 4;
  if (!drag.hasMoved) return;
  first = drag.first - (event.clientX - drag.x) / px;
  paint(false);
});
addEventListener(\"pointerup\", event => {
  if (drag && !drag.hasMoved && $(\"stage\").contains(event.target))
    select(Math.floor(first + xInStage(event) / px), true);
  drag = null;
});
$(\"stage\").addEventListener(\"wheel\", event => {
  event.preventDefault();
  if (event.ctrlKey || event.metaKey) return zoom(Math.exp(-event.deltaY / 300), xInStage(event));
  first += (event.deltaX || event.deltaY) / px;
  paint(false);
}, {passive: false});

// ---- paper: what is in view, in strips of forty records, at most 400

const ON_A_STRIP = 40, ON_PAPER = 400, LEFT_OF_STRIP = 120;
function paperStrip(a, to) {
  const wide = ON_A_STRIP * px, named = (y, words) => svg(\"text\", {x: -8, y, \"text-anchor\": \"end\"}, words);
  const whole = svg(\"svg\", {viewBox: `${-LEFT_OF_STRIP} 0 ${wide + LEFT_OF_STRIP + 10} ${TALL}`});
  const inner = svg(\"svg\", {x: 0, y: 0, width: wide, height: TALL});
  first = a;
  draw(inner, a, Math.min(a + ON_A_STRIP - 1, to), wide, true);
  whole.append(inner, named(outsideMiddle + 4, \"outside\"), named(laneTop(N) + 17, \"console\"));
  head.services.forEach((service, slot) => {
    const {endpoint} = lanes[slot].after(Math.max(base, a - 1));
    whole.append(named(laneMiddle(slot) + 4, `${service.name} ${endpoint}`));
  });
  return whole;
}
addEventListener(\"beforeprint\", () => {
  const view = [px, first], from = Math.max(base, Math.floor(first));
  const to = Math.min(total, from + Math.min(ON_PAPER, Math.ceil(width / px)));
  const parts = [html(\"p\", \"\", `${head.config}, records ${from} to ${to} of ${total}`)];
  px = READABLE;
  for (let a = from; a < to; a += ON_A_STRIP) parts.push(paperStrip(a, to));
  [px, first] = view;
  $(\"paper\").replaceChildren(...parts);
});
addEventListener(\"afterprint\", () => $(\"paper\").replaceChildren());

// ---- the legend and the help

function legendLine(words, ...shapes) {
  const line = html(\"li\");
  if (shapes.length) {
    const small = svg(\"svg\", {width: 30, height: 22, viewBox: \"0 0 30 22\"});
    small.append(...shapes);
    line.append(small);
  }
  line.append(words);
  return line;
}
function legendBar([state, words]) {
  const high = isOut(state) ? 18 : barHeight(state), shapes = [];
  shapes.push(svg(\"rect\", {x: 0, y: 11 - high / 2, width: 30, height: high, class: \"s\" + state}));
  if (state === State.CALLING) shapes.push(svg(\"rect\", {x: 0, y: 11, width: 30, height: 5, class: \"s4b\"}));
  if (hasStrokes(state)) shapes.push(svg(\"path\", {d: strokes(state, 3, 28, 11), class: \"hatch\"}));
  if (isOut(state)) shapes.push(svg(\"text\", {x: 15, y: 15, \"text-anchor\": \"middle\", class: \"in1\"}, \"0\"));
  return legendLine(words, ...shapes);
}
function legendArrow([kind, words]) {
  const isMessage = kind === ArrowKind.MESSAGE;
  return legendLine(
      words, svg(\"line\", {x1: 2, y1: 11, x2: 22, y2: 11, class: isMessage ? \"msg\" : \"msg note\"}),
      svg(\"circle\", {cx: 3, cy: 11, r: 3, class: \"head\"}),
      kind === ArrowKind.WAITING ? svg(\"circle\", {cx: 25, cy: 11, r: 3.5, class: \"open\"}) :
                                   svg(\"path\", {d: \"M20 6L28 11L20 16\", class: isMessage ? \"head\" : \"open\"}));
}
function legend() {
  const bars = [
    [State.OUT, \"out: on that processor\"], [State.DOOMED, \"out, and killed there\"], [State.READY, \"ready\"],
    [State.SENDING, \"sending\"], [State.CALLING, \"calling\"], [State.AWAITING, \"awaiting an answer\"],
    [State.RECEIVING, \"receiving\"]
  ];
  const kinds = [
    [ArrowKind.MESSAGE, \"message, with its type\"], [ArrowKind.NOTIFICATION, \"notification\"],
    [ArrowKind.WAITING, \"notification that waits\"]
  ];
  const whole = \"on top, the whole run: messages grey, deaths red from the top, respawns green, console bytes \" +
      \"blue below; what is in view yellow\";
  const sweep = \"sweep: a letter for each way to end; coloured and ticked: otherwise than without the fault; \" +
      \"grey: as without\";
  const shares = legendLine(
      \"zoomed out: of each column, from below: out, ready, sending, calling, awaiting, receiving; red: a death\");
  shares.id = \"shares\";
  $(\"legend\").replaceChildren(
      ...bars.map(legendBar), ...kinds.map(legendArrow),
      legendLine(\"death\", svg(\"path\", {d: \"M7 3l16 16M7 19l16 -16\", class: \"death\"})),
      legendLine(\"respawn, new endpoint\", svg(\"path\", {d: \"M15 3L23 11L15 19L7 11Z\", class: \"respawnmark\"})),
      legendLine(whole), ...(strip ? [legendLine(sweep)] : []), shares);
}

const SEARCH_HELP = [
  [\"Enter\", \"next hit; with Shift the one before\"], [\"Escape\", \"from the field back to the lanes\"],
  [\"disk\", \"records whose trace has this word\"], [\"service:disk\", \"records about this service\"],
  [\"from:ann to:disk\", \"messages and notifications from one to the other\"], [\"type:3\", \"messages of this type\"],
  [\"call:DEVIO\", \"traps and kernel calls of this name\"],
  [\"is:error\", \"also \" + [...Object.keys(KINDS), ...EVENT_WORDS.filter(word => !KINDS[word])]
                   .filter(word => word !== \"error\").map(word => \"is:\" + word).join(\" \")]
];
function helpRow(name, key, words) {
  const row = html(\"tr\"), cell = html(\"td\");
  cell.append(html(name, \"\", key));
  row.append(cell, html(\"td\", \"\", words));
  return row;
}
function help() {
  for (const [key, words] of Object.values(ACTS).filter(it => strip || it !== ACTS.block))
    $(\"keys\").tBodies[0].append(helpRow(\"kbd\", key.replace(\"Arrow\", \"arrow \"), words));
  for (const [query, words] of SEARCH_HELP) $(\"words\").tBodies[0].append(helpRow(\"code\", query, words));
}

// ---- the beginning: what is read in the first moment is shown, and the rest is read in pieces

const FIRST_MOMENT = 60, PIECE = 40;  // milliseconds
function summary() {
  const count = number => number.toLocaleString(\"en\");
  const processors = head.cpus === 1 ? \"1 processor\" : head.cpus + \" processors\";
  const parts = [`${N} services, ${processors}, ${count(total - base)} records`];
  if (base) parts.push(` from record ${count(base + 1)} on`);
  if (loaded < total) parts.push(`, ${count(loaded)} read`);
  if (tail.refused) parts.push(\"; \" + tail.refused);
  $(\"summary\").textContent = parts.join(\"\");
}
function begin() {
  const wanted = Number(location.hash.slice(1)) || base, isAll = load(FIRST_MOMENT);
  $(\"title\").textContent = document.title = \"Run of \" + head.config;
  $(\"total\").textContent = total;
  if (!strip) $(\"listpanel\").classList.add(\"wide\");
  legend();
  help();
  width = $(\"stage\").clientWidth;
  if ((total - base + 1) * px < width) px = Math.min(60, width / (total - base + 1));
  selected = Math.min(Math.max(base, wanted), loaded);
  first = selected - width / px / 2;
  summary();
  paintNow(true);
  window.firstPaint = performance.now();
  readOn(isAll, wanted);
}
function readOn(isAll, wanted) {
  if (!isAll) return setTimeout(() => {
    const isAllNow = load(PIECE);
    summary();
    readOn(isAllNow, wanted);
  });
  window.allRead = performance.now();
  if (wanted > selected) select(wanted);
  summary();
  paint();
}
begin();
}
</script>
</body>
</html>
";
