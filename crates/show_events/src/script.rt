//! The fixed parts of a page: what draws it.

/// What stands behind the data: the script, and the end of the page.
pub(crate) const SCRIPT: &str = r#"
<script>
'use strict';
const ROW = 20, GUTTER = 66, HEAD = 26, LABEL = 5, PITCH = 26, LEAST = 320;
const byId = id => document.getElementById(id);
// Marks that turn the direction of text, or that nobody sees, are shown as control characters are.
const plain = text => String(text).replace(/[\u061c\u200b-\u200f\u2028-\u202e\u2060-\u206f\ufeff]/g, '?');
const number = n => n.toLocaleString('en');
const [run, ...told] = JSON.parse(byId('run').textContent);
const reports = told.filter(line => 'ended' in line);
const call = `${run.call}(${told.filter(line => 'argument' in line).map(line => line.argument).join(', ')})`;
const moments = new Map(told.filter(line => 'moment' in line).map(line => [line.moment, line.text]));
const events = JSON.parse(byId('events').textContent);
const entries = events.filter(e => e.ph === 'X').sort((a, b) => a.ts - b.ts);
const threads = events.filter(e => e.ph === 'M' && e.name === 'thread_name').map(e => e.tid);
const lane = new Map(threads.map((t, place) => [t, place]));
// Neighbours differ in lightness, so that gray tells them apart.
const color = t => `oklch(var(--l${lane.get(t) % 4}) var(--vivid) ${(lane.get(t) * 67 + 255) % 360})`;
const clamp = (least, n, most) => Math.max(least, Math.min(most, n));
// How many items at the front of a list are so.
const countSo = (items, isSo) => {
  let low = 0, high = items.length;
  while (low < high) {
    const middle = (low + high) >> 1;
    if (isSo(items[middle])) low = middle + 1; else high = middle;
  }
  return low;
};
// Of each thread its rows, and the last of them before a row.
const own = new Map(threads.map(t => [t, []]));
entries.forEach((e, row) => own.get(e.tid).push(row));
const lastOf = (t, row) => countSo(own.get(t), other => other < row) - 1;
// The first row from a number of the log on.
const firstRow = ts => countSo(entries, e => e.ts < ts);
const arrows = [], begun = new Map();
for (const e of events) {
  if (e.ph === 's') begun.set(e.id, firstRow(e.ts));
  if (e.ph === 'f' && begun.has(e.id)) arrows.push({ kind: e.name, from: begun.get(e.id), to: firstRow(e.ts) });
}
const racing = new Set(arrows.filter(a => a.kind === 'races').flatMap(a => [a.from, a.to]));
// A bar goes down to the row of the answer, or to the last row before it that is there.
const bars = entries.flatMap((e, from) => e.dur > 1 ? [{ from, to: firstRow(e.ts + e.dur), tid: e.tid }] : []);
// Where the page opens: at the failure, or at the last row before it that is there.
const failure = Math.max(0, firstRow(run.failure + 1) - 1);
const hasFailed = ended => /^(trap|stop)/.test(ended);
const px = n => n + 'px';
const style = (node, values) => { Object.assign(node.style, values); return node; };
const view = byId('view'), sheet = byId('sheet'), lanes = byId('lanes'), details = byId('details');
const over = byId('over'), map = byId('map'), here = byId('here');
let pitch = PITCH, width = LEAST, chosen = -1, found = [], foundSet = new Set();
let zoom = { from: 0, to: Math.max(1, entries.length) };
const make = (tag, name, text) => {
  const node = document.createElement(tag);
  if (name) node.className = name;
  if (text !== undefined) node.textContent = plain(text);
  return node;
};
const left = tid => GUTTER + lane.get(tid) * pitch;
const middleOf = row => row * ROW + ROW / 2;
// Of a place the function's name, which may be cut, and the rest, which isn't.
const parted = place => {
  const at = /\+0x[0-9a-f]+(?: .*)?$/.exec(place);
  return at ? [place.slice(0, at.index), at[0]] : [place, ''];
};

function drawRow(row) {
  const e = entries[row], [name, spot] = parted(e.args.place);
  const node = make('div', 'row' + (racing.has(row) ? ' racing' : '') + (foundSet.has(row) ? ' found' : '')
    + (/^(ends: (trap|stop)|asleep for good)/.test(e.name) ? ' failed' : '') + (row === chosen ? ' chosen' : ''));
  style(node, { top: px(row * ROW) }).dataset.row = row;
  const cell = style(make('span', 'cell'), { left: px(left(e.tid)), color: color(e.tid) });
  cell.title = plain(e.name + '\n' + e.args.place);
  cell.append(make('b', '', 't' + e.tid), make('span', 'words', e.name), make('span', 'name', name),
    make('span', 'spot', spot));
  node.append(make('i', '', e.args.line), cell);
  return node;
}
function drawArrow(svg, arrow, first, last) {
  const from = entries[arrow.from], to = entries[arrow.to];
  // The end that isn't in sight is cut off: dashes of a line of a million pixels take minutes.
  const within = row => middleOf(clamp(first - 20, row, last + 20));
  const x = left(from.tid) + 4, y = within(arrow.from), u = left(to.tid) + 4, v = within(arrow.to);
  const bend = Math.min(60, Math.abs(v - y) / 2 + 10);
  const path = document.createElementNS('http://www.w3.org/2000/svg', 'path');
  path.setAttribute('class', arrow.kind + (arrow.from === chosen || arrow.to === chosen ? ' near' : ''));
  path.setAttribute('d', `M${x} ${y} C${x - 14} ${y + bend} ${u - 14} ${v - bend} ${u} ${v} m-6 -3 l6 3 l-5 5`);
  svg.append(path);
}
function draw() {
  const first = Math.max(0, Math.floor(view.scrollTop / ROW) - 10);
  const last = Math.min(entries.length, first + Math.ceil(view.clientHeight / ROW) + 20);
  const parts = threads.map(t => style(make('div', 'lane'), { left: px(left(t)) }));
  for (const bar of bars) if (bar.from < last && bar.to >= first) parts.push(style(make('div', 'bar'), {
    left: px(left(bar.tid)), top: px(middleOf(bar.from)),
    height: px(Math.max(4, (bar.to - bar.from) * ROW)), background: color(bar.tid),
  }));
  for (let row = first; row < last; row++) parts.push(drawRow(row));
  const svg = document.createElementNS('http://www.w3.org/2000/svg', 'svg');
  svg.setAttribute('width', '100%');
  svg.setAttribute('height', entries.length * ROW);
  const sees = row => row >= first && row < last;
  const drawn = arrows.filter(arrow => sees(arrow.from) || sees(arrow.to));
  const isNear = arrow => arrow.from === chosen || arrow.to === chosen;
  drawn.sort((a, b) => isNear(b) - isNear(a) || (a.to - a.from) - (b.to - b.from));
  for (const arrow of drawn.slice(0, 100)) drawArrow(svg, arrow, first, last);
  sheet.replaceChildren(...parts, svg);
  frame();
}
// How many characters the longest row has; and with its function's name cut.
const longest = { whole: 0, cut: 0 };
for (const e of entries) {
  const words = Math.min(80, e.name.length + 1), spot = parted(e.args.place)[1].length;
  longest.whole = Math.max(longest.whole, words + e.args.place.length + LABEL);
  longest.cut = Math.max(longest.cut, words + Math.min(3, e.args.place.length - spot) + spot + LABEL);
}
// A row has one thread's text, which may run over the lanes to its right: so it is as wide as the longest one wants.
function lay() {
  const room = view.clientWidth - GUTTER - 10, others = Math.max(0, threads.length - 1);
  const wide = characters => Math.ceil(characters * 7.25) + 10;
  width = Math.max(LEAST, wide(longest.cut), Math.min(wide(longest.whole), room - PITCH * others));
  pitch = others ? Math.max(PITCH, Math.min(width, Math.floor((room - width) / others))) : width;
  style(sheet, { height: px(entries.length * ROW), width: px(GUTTER + pitch * others + width) });
  lanes.style.width = sheet.style.width;
  lanes.replaceChildren(...threads.map(t =>
    style(make('b', '', 't' + t), { left: px(left(t) + 8), color: color(t) })));
  over.style.width = px(clamp(56, threads.length * 16, 192) + 8);
  survey();
  draw();
}
// The overview: of each thread how much of a stretch is its own, and where it sleeps.
function survey() {
  const scale = devicePixelRatio || 1, wide = over.clientWidth, high = Math.max(1, over.clientHeight - HEAD);
  style(map, { width: px(wide), height: px(high) });
  map.width = wide * scale;
  map.height = high * scale;
  const pen = map.getContext('2d'), column = (wide - 8) / Math.max(1, threads.length);
  const each = high / (zoom.to - zoom.from);
  pen.scale(scale, scale);
  const paint = value => {
    over.style.color = value;
    pen.fillStyle = getComputedStyle(over).color;
    over.style.color = '';
  };
  const top = row => (row - zoom.from) * each;
  const counts = threads.map(() => new Float32Array(Math.ceil(high)));
  const last = Math.min(entries.length, Math.ceil(zoom.to));
  for (let row = Math.max(0, Math.floor(zoom.from)); row < last; row++)
    counts[lane.get(entries[row].tid)][Math.max(0, Math.floor(top(row)))] += 1;
  threads.forEach((t, place) => {
    const x = 4 + place * column;
    paint(color(t));
    pen.globalAlpha = .55;
    for (const bar of bars)
      if (bar.tid === t && bar.from < zoom.to && bar.to >= zoom.from)
        pen.fillRect(x + column / 2 - 1, top(bar.from), 2, Math.max(1, (bar.to - bar.from) * each));
    counts[place].forEach((count, y) => {
      if (!count) return;
      pen.globalAlpha = .3 + .7 * Math.min(1, count * each);
      pen.fillRect(x, y, Math.max(1, column - 1), Math.max(1, Math.min(each, 12)));
    });
  });
  pen.globalAlpha = 1;
  paint('var(--race)');
  for (const row of racing) if (row >= zoom.from && row < zoom.to) pen.fillRect(wide - 4, top(row), 4, 1);
  pen.fillRect(0, top(failure + .5) - 1, wide, 2);
  over.querySelectorAll('b').forEach(node => node.remove());
  threads.forEach((t, place) => {
    const name = make('b', '', column >= 14 ? 't' + t : column >= 9 ? t : '');
    over.append(style(name, { left: px(4 + place * column), width: px(column), color: color(t) }));
  });
}
// The rows that the list shows, in the overview.
function frame() {
  const high = Math.max(1, over.clientHeight - HEAD), each = high / (zoom.to - zoom.from);
  const top = clamp(-4, (view.scrollTop / ROW - zoom.from) * each, high);
  const end = clamp(0, ((view.scrollTop + view.clientHeight) / ROW - zoom.from) * each, high);
  style(here, { top: px(HEAD + top), height: px(Math.max(4, end - top)) });
}
function zoomTo(from, size) {
  from = clamp(0, from, Math.max(1, entries.length) - size);
  zoom = { from, to: from + size };
  survey();
}
function zoomBy(factor, row) {
  const most = Math.max(1, entries.length), now = zoom.to - zoom.from;
  const size = clamp(Math.min(40, most), now * factor, most);
  zoomTo(row - (row - zoom.from) / now * size, size);
  frame();
}
const middleRow = () => (view.scrollTop + view.clientHeight / 2) / ROW;
const rowAt = event =>
  zoom.from + (event.clientY - map.getBoundingClientRect().top) / map.clientHeight * (zoom.to - zoom.from);
// Where the list shows rows that the overview doesn't, this goes there.
function follow() {
  const row = clamp(0, middleRow(), entries.length), size = zoom.to - zoom.from;
  if (row < zoom.from || row > zoom.to) zoomTo(row - size / 2, size);
}
function jump(text, row) {
  const button = make('button', '', `${text}: line ${entries[row].args.line}`);
  button.addEventListener('click', () => choose(row));
  return button;
}
function choose(row, keep) {
  if (row < 0 || row >= entries.length) return;
  chosen = row;
  const e = entries[row], list = make('dl');
  const facts = [['line', e.args.line], ['thread', 't' + e.tid], ['does', e.name],
    ['where', e.args.place || 'unknown']];
  if (e.dur > 1) facts.push(['waits for', e.dur + ' entries']);
  for (const [name, text] of facts) list.append(make('dt', '', name), make('dd', '', text));
  details.replaceChildren(make('h2', '', 'Entry'), list);
  const does = { wakes: 'wakes', spawns: 'spawns', races: 'races with' };
  const has = { wakes: 'woken by', spawns: 'spawned by', races: 'races with' };
  const near = arrows.filter(arrow => arrow.from === row || arrow.to === row);
  for (const arrow of near.slice(0, 12)) {
    const [words, other] = arrow.from === row ? [does, arrow.to] : [has, arrow.from];
    details.append(jump(words[arrow.kind] + ' t' + entries[other].tid, other));
  }
  if (near.length > 12) details.append(make('p', 'dim', `and ${number(near.length - 12)} more`));
  const bar = bars.find(b => b.from === row);
  if (bar && bar.to < entries.length) details.append(jump('goes on', bar.to));
  const rows = own.get(e.tid), at = lastOf(e.tid, row);
  if (at >= 0) details.append(jump(`t${e.tid} before`, rows[at]));
  if (at + 2 < rows.length) details.append(jump(`t${e.tid} next`, rows[at + 2]));
  const others = threads.filter(t => t !== e.tid && lastOf(t, row) >= 0);
  if (others.length) details.append(make('h2', '', 'What the others did last'));
  for (const t of others) {
    const last = own.get(t)[lastOf(t, row)], place = entries[last].args.place;
    details.append(jump(`t${t} ${entries[last].name}`, last), make('pre', 'dim', place));
  }
  if (moments.has(e.ts)) details.append(make('h2', '', 'Before it'), make('pre', '', moments.get(e.ts)));
  else details.append(make('p', 'dim', 'Calls, variables and memory at this moment:'),
    make('pre', '', `wathread show FILE RECORD --at ${e.args.line}`));
  if (!keep) show(row);
  history.replaceState(null, '', '#L' + e.args.line);
  draw();
}
function show(row) {
  const top = row * ROW, side = left(entries[row].tid);
  if (top < view.scrollTop + ROW || top > view.scrollTop + view.clientHeight - 4 * ROW)
    view.scrollTop = Math.max(0, top - view.clientHeight / 2);
  if (side < view.scrollLeft + GUTTER || side + width > view.scrollLeft + view.clientWidth)
    view.scrollLeft = side - GUTTER;
  follow();
}
function find() {
  const text = byId('find').value.trim().toLowerCase();
  const has = e => `${e.args.line} t${e.tid} ${e.name} ${e.args.place}`.toLowerCase().includes(text);
  found = text ? [...entries.keys()].filter(row => has(entries[row])) : [];
  foundSet = new Set(found);
  tell();
  draw();
}
function tell() {
  const at = found.indexOf(chosen), text = byId('find').value.trim();
  byId('count').textContent = !text ? `${number(entries.length)} entries`
    : at >= 0 ? `${at + 1} of ${found.length}` : `${found.length} found`;
}
function step(by) {
  if (!found.length) return;
  const next = by > 0 ? found.find(row => row > chosen) : found.findLast(row => row < chosen);
  choose(next ?? found.at(by > 0 ? 0 : -1));
  tell();
}
function paper() {
  const table = byId('paper'), head = make('thead'), body = make('tbody'), top = make('tr');
  top.append(make('th', '', 'line'), ...threads.map(t => make('th', '', 't' + t)), make('th', '', 'where'));
  head.append(top);
  const asleep = new Map();
  for (const e of entries) {
    const line = make('tr');
    line.append(make('td', '', e.args.line));
    for (const t of threads) {
      const cell = make('td', '', t === e.tid ? e.name : '');
      if (t === e.tid || asleep.get(t) >= e.ts) cell.style.borderLeftColor = color(t);
      line.append(cell);
    }
    if (e.dur > 1) asleep.set(e.tid, e.ts + e.dur);
    line.append(make('td', 'dim', e.args.place));
    body.append(line);
  }
  table.replaceChildren(head, body);
}
// The title: the call, how the threads ended, who failed first, and the module.
function entitle() {
  const ways = new Map();
  reports.forEach((end, t) => ways.set(end.ended, [...(ways.get(end.ended) || []), t]));
  const sorted = [...ways].sort(([a], [b]) => hasFailed(b) - hasFailed(a));
  const texts = sorted.map(([ended, who]) => `${who.map(t => 't' + t).join(', ')}: ${ended}`);
  byId('call').textContent = plain(call);
  document.title = plain(`${call}, ${texts.join('; ')}`
    + (run.module ? `, module of ${number(run.module)} bytes` : ''));
  byId('call').title = document.title;
  byId('ends').replaceChildren(...sorted.map(([ended, who], at) => {
    const button = make('button', hasFailed(ended) ? 'failed' : '', texts[at]);
    button.title = 'Go to its end';
    button.addEventListener('click', () => {
      const row = entries.findIndex(e => e.tid === who[0] && e.name.startsWith('ends: '));
      choose(row < 0 ? failure : row);
    });
    return button;
  }));
  if (entries.length < run.chosen) byId('part').textContent = `These are ${number(entries.length)} of `
    + `${number(run.chosen)} entries, those around the failure. Others: wathread show FILE RECORD --lines A-B --html OUT`;
}
view.addEventListener('scroll', () => { follow(); draw(); }, { passive: true });
addEventListener('resize', lay);
matchMedia('(prefers-color-scheme: dark)').addEventListener('change', lay);
addEventListener('beforeprint', paper);
addEventListener('afterprint', () => byId('paper').replaceChildren());
sheet.addEventListener('click', event => {
  const row = event.target.closest('.row');
  if (row) choose(Number(row.dataset.row), true);
});
const scrollTo_ = event => { view.scrollTop = rowAt(event) * ROW - view.clientHeight / 2; };
over.addEventListener('pointerdown', event => {
  if (event.target !== map) return;
  over.setPointerCapture(event.pointerId);
  scrollTo_(event);
});
over.addEventListener('pointermove', event => { if (over.hasPointerCapture(event.pointerId)) scrollTo_(event); });
over.addEventListener('wheel', event => {
  zoomBy(event.deltaY > 0 ? 1.25 : .8, rowAt(event));
  event.preventDefault();
}, { passive: false });
byId('in').addEventListener('click', () => zoomBy(.5, middleRow()));
byId('out').addEventListener('click', () => zoomBy(2, middleRow()));
byId('find').addEventListener('input', find);
byId('find').addEventListener('keydown', event => {
  if (event.key === 'Enter') step(event.shiftKey ? -1 : 1);
  if (event.key === 'Escape') view.focus();
});
byId('next').addEventListener('click', () => step(1));
byId('back').addEventListener('click', () => step(-1));
addEventListener('keydown', event => {
  if (event.target === byId('find') || event.ctrlKey || event.metaKey || event.altKey) return;
  const by = { ArrowDown: 1, j: 1, ArrowUp: -1, k: -1 }[event.key];
  if (by) { choose(chosen + by); event.preventDefault(); }
  if (event.key === '/') { byId('find').focus(); event.preventDefault(); }
  if (event.key === '+') zoomBy(.5, middleRow());
  if (event.key === '-') zoomBy(2, middleRow());
});
const wanted = /^#L(\d+)$/.exec(location.hash);
entitle();
tell();
lay();
choose(wanted ? entries.findIndex(e => e.args.line === Number(wanted[1])) : failure);
</script>
</body>
</html>
"#;
