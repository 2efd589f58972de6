//! The text of a page, around what is told of a run.

/// Up to the title in the head.
pub(crate) const HEAD: &[u8] = b"<!doctype html>
<html lang='en'><head><meta charset='utf-8'><meta name='viewport' content='width=device-width'><title>";

/// Up to the title above the run.
pub(crate) const LOOKS: &[u8] = b"</title>
<style>
body{font:13px 'DejaVu Sans',Helvetica,sans-serif;color:#1b1f24;background:#fff;margin:16px}
h1{font-size:18px;margin:0 0 8px}
p{margin:4px 0;color:#57606a}
#told{min-height:9em;white-space:pre-line;color:#1b1f24}
canvas{display:block;width:100%;touch-action:none;cursor:crosshair;margin:8px 0}
.k{display:inline-block;margin-right:14px}
.k i{display:inline-block;width:12px;height:12px;margin-right:4px;vertical-align:-2px;border:1px solid transparent;box-sizing:border-box}
</style></head><body>
<h1>";

/// Up to the number of phases.
pub(crate) const FRAME: &[u8] = b"</h1>
<p>Turn the wheel to zoom, drag to move, double-click for the whole run. By keys: + and -, the arrows, 0. Point at a mark to read it.</p>
<p id='legend'></p>
<canvas id='run' tabindex='0' role='img' aria-label='The run over time'></canvas>
<p id='told' aria-live='polite'></p>
<noscript><p>This page draws the run by a script, which is turned off here.</p></noscript>
<script type='application/json' id='trace' data-phases='";

/// Up to the trace.
pub(crate) const OPENING: &[u8] = b"'>
";

/// Behind the trace: what draws it.
pub(crate) const SCRIPT: &[u8] = b"</script>
<script>
'use strict';
const source = document.getElementById('trace');
const phases = Number(source.dataset.phases);
const events = JSON.parse(source.textContent);
const canvas = document.getElementById('run');
const told = document.getElementById('told');
const pen = canvas.getContext('2d');
const INK = '#1b1f24', FAINT = '#6a737d', RULE = '#d9dde2', GREEN = '#1a7f37';
const PHASES = [['input', '#8250df'], ['animation', '#0969da'], ['insets', '#57606a'], ['traversal', GREEN], ['commit', '#bc4c00']]
  .filter((phase, number) => phases === 5 || number !== 2);
const LEFT = 130, RIGHT = 24, HEAD = 26, HEIGHT = {dispatch: 22, message: 22, frame: 30, gauge: 58};
const ORDER = ['dispatch', 'message', 'frame', 'gauge'];

// What an event is: the kind and the name of its row, and the order of the row among those of its kind.
function rowOf(event) {
  if (event.name === 'frame' || event.name.startsWith('phase ')) return ['frame', 'frames', 0];
  if (event.ph === 'C') {
    const gauge = event.name.slice(event.name.indexOf('gauge'));
    return ['gauge', gauge, Number(gauge.slice(6))];
  }
  const handler = Number(event.name.split(' ')[1]);
  return handler < 64 ? ['dispatch', 'handler ' + handler, handler] : ['message', 'frame messages', 0];
}

const lanes = new Map();
const marks = events.filter(event => event.ph !== 'M');
for (const event of events) {
  if (event.ph === 'M') {
    if (event.name === 'thread_name') lanes.set(event.tid, {name: event.args.name, rows: []});
    continue;
  }
  const lane = lanes.get(event.tid);
  const [kind, name, order] = rowOf(event);
  let row = lane.rows.find(found => found.name === name);
  if (!row) {
    row = {kind, name, order, marks: [], runs: []};
    lane.rows.push(row);
  }
  (event.name.startsWith('phase ') ? row.runs : row.marks).push(event);
}
for (const lane of lanes.values())
  lane.rows.sort((one, other) => ORDER.indexOf(one.kind) - ORDER.indexOf(other.kind) || one.order - other.order);

function textOf(event) {
  const time = (event.ts / 1000).toFixed(3) + ' ms: ';
  if (event.ph === 'C') return time + event.name.slice(event.name.indexOf('gauge')) + ' at ' + event.args.value;
  if (event.args) return time + 'message ' + event.args.number + ', ' + event.name;
  return time + event.name;
}

function rounded(number) {
  for (let unit = 1; ; unit *= 10)
    for (const factor of [1, 2, 5])
      if (unit * factor >= number) return unit * factor;
}

let first = Infinity, last = -Infinity, most = 1;
for (const event of marks) {
  first = Math.min(first, event.ts);
  last = Math.max(last, event.ts + Math.max(event.dur || 0, 1000));
  if (event.ph === 'C') most = Math.max(most, event.args.value);
}
if (marks.length === 0) { first = 0; last = 1000; }
most = rounded(most);
let from = first, to = last, hits = [];

const x = time => LEFT + (time - from) / (to - from) * (canvas.clientWidth - LEFT - RIGHT);

function write(text, left, y, colour, align, font) {
  pen.fillStyle = colour;
  pen.textAlign = align;
  pen.font = font || '11px DejaVu Sans, Helvetica, sans-serif';
  pen.fillText(text, left, y);
}

function rule(left, top, right, bottom) {
  pen.strokeStyle = RULE;
  pen.beginPath();
  pen.moveTo(left, top);
  pen.lineTo(right, bottom);
  pen.stroke();
}

function drawDispatches(row, y) {
  rule(LEFT, y + 17, canvas.clientWidth - RIGHT, y + 17);
  row.marks.forEach((event, place) => {
    const at = x(event.ts), end = place + 1 < row.marks.length ? x(row.marks[place + 1].ts) : canvas.clientWidth;
    if (at < LEFT - 1 || at > canvas.clientWidth - RIGHT + 1) return;
    pen.beginPath();
    pen.moveTo(at, y + 3);
    pen.lineTo(at + 4, y + 9);
    pen.lineTo(at, y + 15);
    pen.lineTo(at - 4, y + 9);
    pen.closePath();
    if (row.kind === 'message') {
      pen.strokeStyle = FAINT;
      pen.fillStyle = '#fff';
      pen.fill();
      pen.stroke();
    } else {
      pen.fillStyle = INK;
      pen.fill();
      const text = event.name.split(' what ')[1] || 'c' + event.name.split(' callback ')[1];
      if (at + 8 + 7 * text.length <= end) write(text, at + 6, y + 13, INK, 'left', '10px DejaVu Sans, Helvetica, sans-serif');
    }
    hits.push({left: at - 5, top: y, right: at + 5, bottom: y + 18, event});
  });
}

function drawFrames(row, y) {
  const ran = new Map();
  for (const event of row.runs) ran.set(event.ts, (ran.get(event.ts) || []).concat(event));
  for (const event of row.marks) {
    const left = Math.max(x(event.ts), LEFT), right = Math.min(x(event.ts + event.dur), canvas.clientWidth - RIGHT);
    if (right < LEFT || left > canvas.clientWidth - RIGHT) continue;
    const runs = ran.get(event.ts) || [];
    const wide = Math.max(right - left - 1, 1);
    pen.fillStyle = runs.length ? '#eaeef2' : '#fff';
    pen.strokeStyle = '#8c959f';
    pen.setLineDash(runs.length ? [] : [3, 2]);
    pen.fillRect(left, y + 3, wide, 20);
    pen.strokeRect(left, y + 3, wide, 20);
    pen.setLineDash([]);
    hits.push({left: left - 1, top: y + 3, right: left + wide + 1, bottom: y + 24, event});
    const numbers = [...new Set(runs.map(run => Number(run.name.split(' ')[1])))].sort((one, other) => one - other);
    const part = (x(event.ts + event.dur) - x(event.ts)) / phases;
    numbers.forEach((number, place) => {
      const phase = PHASES[Math.min(number, phases - 1)];
      const box = part >= 4
        ? [x(event.ts) + number * part + 1, y + 4, part - 1, 18]
        : [left, y + 4 + place * 18 / numbers.length, wide, 18 / numbers.length];
      const end = Math.min(box[0] + box[2], canvas.clientWidth - RIGHT);
      box[0] = Math.max(box[0], LEFT);
      box[2] = end - box[0];
      if (box[2] <= 0) return;
      pen.fillStyle = phase[1];
      pen.fillRect(...box);
      if (box[2] > 9 && part >= 4) write(phase[0][0].toUpperCase(), box[0] + box[2] / 2, y + 17, '#fff', 'center', '10px sans-serif');
      for (const run of runs.filter(each => Number(each.name.split(' ')[1]) === number))
        hits.push({left: box[0], top: box[1], right: box[0] + box[2], bottom: box[1] + box[3], event: run});
    });
  }
}

function drawGauge(row, y) {
  const level = value => y + 48 - 36 * value / most;
  rule(LEFT, level(0), canvas.clientWidth - RIGHT, level(0));
  rule(LEFT, level(most), canvas.clientWidth - RIGHT, level(most));
  write(String(most), LEFT - 4, level(most) + 3, FAINT, 'right', '9px sans-serif');
  write('0', LEFT - 4, level(0) + 3, FAINT, 'right', '9px sans-serif');
  const before = row.marks.filter(event => event.ts < from).pop();
  pen.beginPath();
  pen.moveTo(LEFT, level(before ? before.args.value : 0));
  let now = level(before ? before.args.value : 0);
  const shown = row.marks.filter(event => event.ts >= from && event.ts <= to);
  for (const event of shown) {
    pen.lineTo(x(event.ts), now);
    now = level(event.args.value);
    pen.lineTo(x(event.ts), now);
  }
  pen.lineTo(canvas.clientWidth - RIGHT, now);
  pen.strokeStyle = GREEN;
  pen.lineWidth = 1.6;
  pen.stroke();
  pen.lineWidth = 1;
  shown.forEach((event, place) => {
    const at = x(event.ts), high = level(event.args.value), text = String(event.args.value);
    const end = place + 1 < shown.length ? x(shown[place + 1].ts) : canvas.clientWidth;
    pen.fillStyle = GREEN;
    pen.fillRect(at - 2, high - 2, 4, 4);
    if (at + 5 + 7 * text.length <= end) write(text, at + 3, high - 4, INK, 'left', '10px sans-serif');
    hits.push({left: at - 4, top: high - 5, right: at + 4, bottom: high + 5, event});
  });
}

function drawTimes(bottom) {
  const span = (to - from) / 1000, room = (canvas.clientWidth - LEFT - RIGHT) / 90;
  let step = 0.001;
  search: for (let unit = 0.001; ; unit *= 10)
    for (const factor of [1, 2, 5])
      if (span / (unit * factor) <= room) {
        step = unit * factor;
        break search;
      }
  const digits = Math.max(0, -Math.floor(Math.log10(step) + 1e-9));
  for (let time = Math.ceil(from / 1000 / step) * step; time <= to / 1000; time += step) {
    rule(x(time * 1000), 18, x(time * 1000), bottom);
    write(time.toFixed(digits) + ' ms', x(time * 1000), 12, FAINT, 'center');
  }
}

function heightOf() {
  let height = 24;
  for (const lane of lanes.values()) height += HEAD + 10 + lane.rows.reduce((sum, row) => sum + HEIGHT[row.kind], 0);
  return height;
}

function draw() {
  const height = heightOf(), ratio = window.devicePixelRatio || 1;
  canvas.style.height = height + 'px';
  canvas.width = canvas.clientWidth * ratio;
  canvas.height = height * ratio;
  pen.setTransform(ratio, 0, 0, ratio, 0, 0);
  pen.clearRect(0, 0, canvas.clientWidth, height);
  hits = [];
  if (marks.length) drawTimes(height - 6);
  let y = 24;
  for (const lane of lanes.values()) {
    write(lane.name, 0, y + 16, INK, 'left', 'bold 14px DejaVu Sans, Helvetica, sans-serif');
    y += HEAD;
    for (const row of lane.rows) {
      write(row.name, LEFT - (row.kind === 'gauge' ? 30 : 10), y + HEIGHT[row.kind] / 2 + 3, FAINT, 'right');
      if (row.kind === 'frame') drawFrames(row, y);
      else if (row.kind === 'gauge') drawGauge(row, y);
      else drawDispatches(row, y);
      y += HEIGHT[row.kind];
    }
    rule(0, y + 4, canvas.clientWidth - RIGHT, y + 4);
    y += 10;
  }
  document.body.dataset.marks = marks.length;
  document.body.dataset.shown = new Set(hits.map(hit => hit.event)).size;
}

function look(left, top) {
  const found = hits.filter(hit => hit.left <= left && left <= hit.right && hit.top <= top && top <= hit.bottom);
  const lines = found.slice(0, 8).map(hit => textOf(hit.event));
  if (found.length > 8) lines.push('and ' + (found.length - 8) + ' more here');
  told.textContent = lines.join(String.fromCharCode(10));
}

function show(start, end) {
  const span = Math.min(Math.max(end - start, 10), last - first);
  from = Math.min(Math.max(start, first), last - span);
  to = from + span;
  draw();
}

function zoom(factor, time) {
  show(time - (time - from) * factor, time + (to - time) * factor);
}

const timeAt = left => from + (left - LEFT) / (canvas.clientWidth - LEFT - RIGHT) * (to - from);
canvas.addEventListener('wheel', event => {
  event.preventDefault();
  zoom(Math.exp(event.deltaY * 0.0015), timeAt(event.offsetX));
  look(event.offsetX, event.offsetY);
}, {passive: false});
let held = null;
canvas.addEventListener('pointerdown', event => { held = event.offsetX; });
window.addEventListener('pointerup', () => { held = null; });
canvas.addEventListener('pointermove', event => {
  if (held !== null) {
    const by = timeAt(held) - timeAt(event.offsetX);
    held = event.offsetX;
    show(from + by, to + by);
  }
  look(event.offsetX, event.offsetY);
});
canvas.addEventListener('dblclick', () => show(first, last));
canvas.addEventListener('keydown', event => {
  const middle = (from + to) / 2, part = (to - from) / 5;
  if (event.key === '+') zoom(0.7, middle);
  else if (event.key === '-') zoom(1 / 0.7, middle);
  else if (event.key === '0') show(first, last);
  else if (event.key === 'ArrowLeft') show(from - part, to - part);
  else if (event.key === 'ArrowRight') show(from + part, to + part);
  else return;
  event.preventDefault();
});
window.addEventListener('resize', draw);

function explain(name, style) {
  const sign = document.createElement('span'), box = document.createElement('i');
  sign.className = 'k';
  Object.assign(box.style, style);
  sign.append(box, name);
  document.getElementById('legend').append(sign);
}
for (const [name, colour] of PHASES) explain(name, {background: colour});
explain('frame', {background: '#eaeef2', borderColor: '#8c959f'});
explain('frame in which nothing ran', {border: '1px dashed #8c959f'});
explain('dispatch, with its what or callback', {background: INK, transform: 'rotate(45deg) scale(.7)'});
explain('dispatch of a frame message', {borderColor: FAINT, transform: 'rotate(45deg) scale(.7)'});
explain('value of a gauge', {background: GREEN, transform: 'scale(.5)'});
if (marks.length === 0) told.textContent = 'Nothing was dispatched, and no frame began.';
draw();
</script>
</body></html>
";
