//! How the page looks and what it does. `make/look.py` writes this file from `look/views.js`.

/// The second part of the script: the other views, and what leads to each view.
pub(crate) const VIEW_SCRIPT: &[u8] = b"\
// ---- Day

function newSection(id) {
  const section = document.createElement('section');
  section.id = id;
  section.hidden = true;
  list.after(section);
  return [id, section];
}
const views = Object.fromEntries(['network', 'day'].map(newSection));
const stations = known(() => {
  const flown = flights.flatMap(f => f.its.flatMap(it => it.stations));
  const before = changes.flatMap(c => c.before.flatMap(leg => [leg.from, leg.to]));
  return [...new Set([...flown, ...before])].sort();
});

// The station at which most flight dates begin.
const hub = known(() => {
  const counts = {};
  for (const f of flights) {
    const station = f.main.stations[0];
    counts[station] = (counts[station] ?? 0) + f.dates;
  }
  return Object.keys(counts).sort((a, b) => counts[b] - counts[a])[0];
});

// What a movement was before the changes.
function noteOf(c, leg, end) {
  const old = c.before.find(it => it.sequence === leg.sequence);
  if (!old) return 'new';
  const here = old.local[end], there = old.local[1 - end].at;
  const was = [there !== leg.local[1 - end].at && there,
    here.t !== leg.local[end].t && clock(here.t), old.type !== leg.type && old.type];
  return was.some(Boolean) && `was ${was.filter(Boolean).join(' ')}`;
}

// The movements at a station on a local date: departures with end 0, arrivals with end 1; also
// those that were there before.
function movements(n, at, end) {
  const isHere = leg => (end ? leg.to : leg.from) === at, found = [];
  for (const f of flights) {
    for (const it of f.its) {
      for (const l of it.stations.includes(at) ? it.legs.filter(isHere) : []) {
        const origin = n - l.local[end].plus;
        if (f.on(origin) !== it) continue;
        const c = changeOn(f.name, origin);
        found.push({name: f.name, origin, l, note: c && noteOf(c, l, end)});
      }
    }
  }
  for (const c of changes) {
    for (const l of c.before.filter(isHere)) {
      const origin = n - l.local[end].plus;
      const stays = c.after.some(leg => leg.sequence === l.sequence && isHere(leg));
      if (stays || !holds(c, origin)) continue;
      const note = c.after.length ? 'other route' : 'cancelled';
      found.push({name: c.name, origin, l, off: true, note});
    }
  }
  return found.sort((a, b) => a.l.local[end].t - b.l.local[end].t || compare(a.name, b.name));
}

// The departures or arrivals, with a line at the station's own clock if that is on the date.
function board(n, at, end) {
  const rows = movements(n, at, end);
  const minutes = rows.length && Math.floor(Date.now() / 6e4) + rows[0].l.local[end].offset;
  const now = rows.length && Math.floor(minutes / 1440) === n ? minutes % 1440 : -1;
  let line = now >= 0 && h`<tr class=\"now\"><td colspan=\"7\">${clock(now)}`;
  const made = rows.map(row => {
    const before = row.l.local[end].t >= now && line;
    if (before) line = false;
    return h`${before}${movementRow(n, end, now, row)}`;
  });
  const head = ['Time', 'Flight', end ? 'From' : 'To', end ? 'Departs' : 'Arrives', 'Aircraft',
    'Terminal', ''];
  return h`<div><h3>${end ? 'Arrivals' : 'Departures'}<small>${
    rows.filter(row => !row.off).length}</small></h3>${table(head, [made, line])}</div>`;
}
function movementRow(n, end, now, {name, origin, l, off, note}) {
  const here = l.local[end], there = l.local[1 - end], later = there.plus - here.plus;
  const terminal = l.words[12 + end] ?? '.';
  return h`<tr class=\"${off ? 'off' : here.t < now && 'past'}\">
    <td class=\"big\">${clock(here.t)}<td><a href=\"#${name}\">${name}</a>
    <td>${dayLink(n + later, there.at, there.at)}<td>${clock(there.t)}${plus(later)}<td>${l.type}
    <td>${terminal !== '.' && terminal}<td class=\"note w\">${note}${
      origin !== n && h` <small>of ${spell(origin).slice(0, 5)}</small>`}`;
}

// The flights with this date of origin, and those that were there before.
function flightsOn(n) {
  const rows = [], put = (name, it, c) => {
    const legs = it?.legs ?? c?.before ?? [];
    if (legs.length) rows.push({name, it, c, legs, departure: legs[0].ends[0].t});
  };
  for (const f of flights) put(f.name, f.on(n), changeOn(f.name, n));
  for (const c of changes) if (!byName.has(c.name) && holds(c, n)) put(c.name, undefined, c);
  return rows.sort((a, b) => a.departure - b.departure || compare(a.name, b.name));
}
function flightRow(row) {
  const legs = row.legs.map((leg, k) =>
    h`${k > 0 && ' \\u00b7 '}${leg.from} ${time(leg.ends[0])} &rarr; ${leg.to} ${time(leg.ends[1])}`);
  const note = row.c && (row.it ? `changed: ${row.c.what}` : 'cancelled');
  return h`<div class=\"row${!row.it && ' off'}\"><a href=\"#${row.name}\">${row.name}</a>
    <span>${legs}</span><span>${[...new Set(row.legs.map(leg => leg.type))].join(' ')}</span>
    <span class=\"note\">${note}</span></div>`;
}
const LONG = {weekday: 'long', day: 'numeric', month: 'long', year: 'numeric', timeZone: 'UTC'};
function showDay(s) {
  all();
  const n = DATE.test(s.date) ? day(s.date.toUpperCase()) : NEAR, at = s.at ?? hub();
  const rows = flightsOn(n), off = rows.filter(row => !row.it).length, most = s.all ? 1e9 : 300;
  const held = $$('.pick>*', views.day).indexOf(document.activeElement);
  const date = new Date(n * MILLISECONDS).toLocaleDateString('en-GB', LONG);
  const option = name => h`<option${name === at && h` selected`}>${name}`;
  Object.assign(state, {date: spell(n), at});
  views.day.innerHTML = h`<div class=\"pick\">
    <h2>${date}<small>${at ? `${at}, local times` : 'all stations'}</small></h2>
    <button data-go=\"-1\" aria-label=\"Day before\">&larr;</button>
    <input type=\"date\" aria-label=\"Date\" value=\"${iso(n)}\">
    <button data-go=\"1\" aria-label=\"Day after\">&rarr;</button><button data-go=\"0\">Today</button>
    <select aria-label=\"Station\"><option value=\"\">All stations</option>${
      stations().map(option)}</select></div>
    ${at && h`<div class=\"halves\">${board(n, at, 0)}${board(n, at, 1)}</div>`}
    <h3 class=\"all\">All flights of this date${UTC && ', UTC'}<small>${
      many(rows.length - off, 'flight')}${off > 0 && `, ${off} cancelled`}</small></h3>
    ${rows.slice(0, most).map(flightRow)}
    ${rows.length > most && h`<p class=\"none\"><a
      href=\"#day?date=${spell(n)}&amp;at=${at}&amp;all=1\"
      >Show all ${rows.length.toLocaleString('en')}</a></p>`}`;
  $$('.pick>*', views.day)[held]?.focus();
}

// ---- Changes and messages

const SIGNS = {'-': 'minus', '+': 'plus'};

// Makes the articles of changes and messages of their rows.
const dress = known(() => {
  changes.forEach(dressChange);
  $$('#messages li').forEach(dressSubMessage);
});
function dressChange(c) {
  $('h3', c.element).innerHTML = h`<a href=\"#${c.name}?mark=${c.mark}\">${c.name}</a>
    <b class=\"tag ${c.what}\">${c.what}</b><div>${dates(c)}</div>`;
  $('pre', c.element).innerHTML = h`${c.lines.map(line => changedLine(c, line))}`;
}

// A line of a change: in a leg that both have, the words that differ stand out.
function changedLine(c, line) {
  const others = {'-': c.after, '+': c.before}[line[0]];
  const other = others?.find(leg => leg.sequence === line.slice(2, 4));
  const words = other ? markedWords(line.slice(2).split(' '), other.words) : line.slice(2);
  return h`<span class=\"${SIGNS[line[0]]}\">${line.slice(0, 2)}${words}\\n</span>`;
}
const markedWords = (words, others) => words.map((word, n) =>
  h`${n > 0 && ' '}${others[n] === word ? word : h`<b>${word}</b>`}`);
function dressSubMessage(li) {
  const [action, name, first, last, mask, ...found] = li.textContent.trim().split(' ');
  const words = [first, last, mask];
  const results = found.map((word, n) =>
    n > 1 && n % 2 === 0 && +found[n + 1] > 0 && h` <em>${word} ${found[n + 1]}</em>`);
  li.innerHTML = h`<b class=\"act ${action}\">${action}</b><a href=\"#${name}\">${name}</a><a
    href=\"#${name}?mark=${words.join('+')}\">${dates(periodOf(words.join(' ')))}</a><span>acted on ${
    many(+found[1], 'date')}${results}</span>`;
}
function showTexts(s) {
  dress();
  const words = wordsOf(s.q), articles = $$(`#${s.view}>article`);
  for (const article of articles) {
    const text = article.textContent.toUpperCase();
    article.hidden = !words.every(word => text.includes(word));
    article.classList.toggle('at', !!s.at && article.id === s.at);
  }
  const n = articles.filter(article => !article.hidden).length;
  const of = n < articles.length ? `${n} of ` : '';
  $('#count').textContent = of + many(articles.length, s.view.slice(0, -1));
  if (s.at) document.getElementById(s.at)?.scrollIntoView({block: 'center'});
}

// ---- Network

// Departures by station and by aircraft type, and flights by week and by weekday.
function traffic() {
  const entry = known(() => ({n: 0, weeks: Array(WEEKS).fill(0), set: new Set()}));
  const stations = new Set(), types = new Set(), total = entry(''), perDay = Array(7).fill(0);
  const named = (names, kind, name) => {
    names.add(name);
    return entry(kind + name);
  };
  for (const f of all()) {
    for (const p of f.periods) {
      const counted = p.it.legs.map(leg => {
        const station = named(stations, 's', leg.from), type = named(types, 't', leg.type);
        station.set.add(leg.to);
        type.set.add(f.name);
        return [station, type];
      });
      for (let n = p.first; n <= p.last; n++) {
        if (hasWeekday(p.mask, weekday(n))) count(n, counted);
      }
    }
  }
  function count(n, counted) {
    const week = (n - MONDAY - weekday(n)) / 7;
    total.weeks[week]++;
    perDay[weekday(n)]++;
    for (const [station, type] of counted) {
      station.n++;
      station.weeks[week]++;
      type.n++;
      total.n++;
    }
  }
  const ranked = (names, kind) => [...names].map(name => ({name, ...entry(kind + name)}))
    .sort((a, b) => b.n - a.n);
  return {total, perDay, places: ranked(stations, 's'), types: ranked(types, 't')};
}
const columns = (weeks, top, name) => {
  const d = weeks.map((n, week) => `M${week + .1} 100v${-98 * n / top}h.8V100`).join('');
  return h`<svg class=\"${name}\" viewBox=\"0 0 ${WEEKS} 100\" preserveAspectRatio=\"none\"
    aria-hidden=\"true\"><path d=\"${d}\"/></svg>`;
};
function showNetwork() {
  if (views.network.firstChild) return;
  const {total, perDay, places, types} = traffic();
  const top = Math.max(1, ...total.weeks), weeks = (LAST - FIRST + 1) / 7;
  const busiest = spell(MONDAY + 7 * total.weeks.indexOf(top));
  const grouped = n => n.toLocaleString('en');
  const aWeek = n => n < weeks * 10 ? (n / weeks).toFixed(1) : grouped(Math.round(n / weeks));
  const bar = (n, of) => h`<td class=\"n\">${aWeek(n)}
    <td class=\"w\"><span class=\"bar\" style=\"width:${100 * n / of}%\"></span>`;
  const search = (word, text) => h`<a href=\"#timetable?q=${word}\">${text}</a>`;
  const figures = [[grouped(flights.length), 'flights'], [places.length, 'stations'],
    [aWeek(total.n), 'departures a week'], [spell(FIRST), 'first date'], [spell(LAST), 'last date']];
  const placeRow = p => h`<tr><td>${dayLink(NEAR, p.name, p.name)}<td>${p.set.size}
    <td>${columns(p.weeks, Math.max(...p.weeks), 'spark')}${bar(p.n, places[0].n)}`;
  const dayRow = (n, d) =>
    h`<tr><td>${search(WEEK[d].toLowerCase(), WEEK[d])}${bar(n, Math.max(...perDay))}`;
  const typeRow = t =>
    h`<tr><td>${search(t.name, t.name)}<td>${grouped(t.set.size)}${bar(t.n, types[0].n)}`;
  views.network.innerHTML = h`<div class=\"figures\">${figures.map(([n, what]) =>
      h`<div><b>${n}</b>${what}</div>`)}</div>
    <h3>Flights a week<small>most ${grouped(top)}, from ${busiest}</small></h3>
    ${axis}${columns(total.weeks, top, 'cols')}
    <div class=\"halves\"><div><h3>Stations</h3>
    ${table(['Station', 'To', 'Season', 'Departures a week', ''], places.map(placeRow))}</div>
    <div><h3>Weekdays</h3>${table(['Weekday', 'Flights', ''], perDay.map(dayRow))}<h3>Aircraft</h3>
    ${table(['Type', 'Flights', 'Departures a week', ''], types.map(typeRow))}</div></div>`;
}

// ---- What is shown is the part of the address after #, as #day?date=24MAY27&at=FDH or #Z7341

let state = {};
const VIEWS = {timetable: showTimetable, day: showDay, changes: showTexts, messages: showTexts,
  network: showNetwork};
const HINTS = {timetable: '341, HAM, FDH-HAM, E90, 24MAY, mon',
  changes: '341, HAM, cancelled, times', messages: '341, CNL, 15MAR27, absent'};

// Changes what is shown, and the address without a step back.
function go(changed) {
  const {view, ...rest} = {...state, ...changed};
  const words = Object.entries(rest).filter(([key, value]) => value || key === 'at')
    .map(([key, value]) => `${key}=${encodeURIComponent(value).replace(/%20/g, '+')}`).join('&');
  const hash = '#' + view + (words && '?' + words);
  try { history.replaceState(null, '', hash); } catch { /* too many in a short time */ }
  show(hash);
}

// What an address says: the view and its words. The name of a flight opens it; if the flight is
// cancelled on all its dates, its changes are shown.
function stateOf(hash) {
  const [name, query] = hash.slice(1).split('?'), words = new URLSearchParams(query);
  const found = Object.fromEntries(words);
  if (byName.has(name)) return {...found, view: 'timetable', open: name};
  if (changesOf(name).length > 0) return {...found, view: 'changes', q: name};
  return {...found, view: Object.hasOwn(VIEWS, name) && $('#' + name) ? name : 'timetable'};
}
function show(hash) {
  state = stateOf(hash);
  const {view} = state, box = $('#words'), terms = termsOf(state.q);
  $$('section').forEach(section => section.hidden = section.id !== view);
  for (const link of $$('nav a')) {
    if (link.hash === '#' + view) link.setAttribute('aria-current', 'page');
    else link.removeAttribute('aria-current');
  }
  $('form').hidden = !HINTS[view];
  $$('.week,#date').forEach(element => element.hidden = view !== 'timetable');
  box.placeholder = `Search: ${HINTS[view]}`;
  if (box.value.trim() !== (state.q ?? '')) box.value = state.q ?? '';
  $$('.week button').forEach((button, n) =>
    button.setAttribute('aria-pressed', !!hasWeekday(terms.mask, n)));
  $('#date').value = terms.dates.length ? iso(terms.dates[0]) : '';
  style.setProperty('--top', $('header').offsetHeight + 'px');
  VIEWS[view](state);
  const flight = byName.get(hash.slice(1).split('?')[0]);
  if (flight) goToFlight(flight);
}
function goToFlight(f) {
  layOut(shown.indexOf(f) + PART);
  f.element.scrollIntoView();
  fillSight();
  rove(f);
  $('button', f.element).focus({preventScroll: true});
}

// Other days, and other words of the search.
const step = by => go({date: spell(by ? day(state.date) + by : localDay())});
const swap = (test, word) => {
  const kept = $('#words').value.split(/\\s+/).filter(it => it && !test(it));
  go({q: [...kept, word].join(' ').trim()});
};

// ---- The parts of the page that are always there, and what happens on them

for (const link of $$('nav a')) {
  if (/changes|messages/.test(link.hash) && !$(link.hash)) link.remove();
}
$('.week').innerHTML = h`${WEEK.map(name => h`<button type=\"button\">${name}</button>`)}`;
add(document.body, h`<footer><kbd>/</kbd>search<kbd>&uarr; &darr;</kbd>flight
  <kbd>Enter</kbd>open<kbd>&larr; &rarr;</kbd>date<kbd>t</kbd>today
  <kbd>1 &ndash; ${$$('nav a').length}</kbd>view</footer>`);

addEventListener('hashchange', () => {
  scrollTo(0, 0);
  show(location.hash);
});
addEventListener('scroll', fillSight, {passive: true});
addEventListener('resize', fillSight);
addEventListener('beforeprint', () => {
  layOut(shown.length);
  shown.forEach(fill);
});
$('form').addEventListener('submit', event => event.preventDefault());
$('#words').addEventListener('input', event => go({q: event.target.value.trim()}));

document.addEventListener('change', ({target: box}) => {
  const isDate = box.type === 'date' && box.value;
  const date = isDate && spell(Date.parse(box.value) / MILLISECONDS);
  if (box.id === 'date') swap(word => DATE.test(word), date || '');
  else if (date) go({date});
  else if (box.matches('select')) go({at: box.value});
});

function toggleByHand(f) {
  const others = [...opened].filter(it => it !== f);
  const open = opened.has(f) ? others : [...others, f];
  go({open: open.map(it => it.name).join(' '), mark: '', view: 'timetable'});
}
document.addEventListener('click', event => {
  const button = event.target.closest('button,article>span,.st');
  const f = button && byName.get(button.closest('article')?.id);
  if (f) toggleByHand(f);
  else if (button?.dataset.sort) {
    go({sort: button.dataset.sort === 'Flight' ? '' : button.dataset.sort});
  } else if (button?.dataset.go) step(+button.dataset.go);
  else if (button?.matches('.week *')) {
    const name = button.textContent.toLowerCase();
    swap(word => word.toLowerCase() === name, button.ariaPressed === 'true' ? '' : name);
  }
});

// Down from the search box goes to the first flight, and from a flight to the next.
function roveBy(event, box) {
  const by = event.key === 'ArrowDown' ? 1 : -1;
  const next = shown[event.target === box ? 0 : shown.indexOf(current) + by];
  if (!next) return;
  layOut(shown.indexOf(next) + 1);
  rove(next);
  $('button', next.element).focus();
  event.preventDefault();
}
function goToSearch(event, box) {
  if ($('form').hidden) {
    state = {view: 'timetable'};
    go({});
  }
  box.focus();
  event.preventDefault();
}
const STEPS = {ArrowLeft: -1, ArrowRight: 1, t: 0};
document.addEventListener('keydown', event => {
  const {key, target} = event, box = $('#words'), typing = target.matches('input,select');
  if (event.ctrlKey || event.metaKey || event.altKey) return;
  if (key === 'Escape' && target === box) {
    go({q: ''});
    box.blur();
  } else if (/^Arrow(Up|Down)$/.test(key) && state.view === 'timetable'
    && (!typing || target === box)) roveBy(event, box);
  else if (typing) return;
  else if (key === '/') goToSearch(event, box);
  else if (/^[1-5]$/.test(key)) $$('nav a')[key - 1]?.click();
  else if (state.view === 'day' && Object.hasOwn(STEPS, key)) step(STEPS[key]);
});

show(location.hash);
goOn();
setInterval(() => state.view === 'day' && showDay(state), 6e4);
</script>
";
